//! Elements of a page.

use scr_markup::{close, leaf, open};
use std::test::Fail;

/// What no clause says: that the calls succeed where there is memory. The text is that of the definition.
#[test]
fn a_page(rt: HostRuntime) -> Result<(), Fail> {
    let mut page = String::new(rt.alloc());
    open(
        &mut page,
        "section",
        &[("class", "page"), ("data-round", "1")],
    )?;
    leaf(&mut page, "p", &[], "R U' <&> \"x\"")?;
    leaf(
        &mut page,
        "path",
        &[("d", "M0 0"), ("title", "a \"b\" & c")],
        "",
    )?;
    close(&mut page, "section")?;
    let expected =
        "<section class=\"page\" data-round=\"1\">\n<p>R U' &lt;&amp;&gt; &quot;x&quot;</p>\n\
        <path d=\"M0 0\" title=\"a &quot;b&quot; &amp; c\"></path>\n</section>\n";
    assert_eq!(rt; page.as_str(), expected);
    Ok(())
}
