//! The pieces of a Square-1 in unit order.
ghost use Rattle.std.specs.Prelude.{◌≡◌};
ghost use Rattle.scr_combinatorics.specs.Permutations.{IsPermutation};
ghost use Rattle.scr_sq1.specs.Units.{IsSq1};
ghost use Rattle.scr_sq1.specs.Numbers.{corners_of, edges_of};

use crate::state::Sq1;

impl Sq1 {
    /// The corners in unit order, and the edges, edge n for piece 8 + n.
    #[tactic(auto, using(crate::proofs::Cited::pieces))]
    pub fn pieces(&self) -> ([u8; 8], [u8; 8])
        ensures corners { result.0 ≡ corners_of self.now.units }
        ensures edges { result.1 ≡ edges_of self.now.units }
        ensures corner_list { IsPermutation 8 result.0 }
        ensures edge_list { IsPermutation 8 result.1 }
        ensures valid { IsSq1 self.now }
    {
        let units = self.units();
        let mut corners = [0; 8];
        let mut edges = [0; 8];
        let mut corner: usize = 0;
        let mut edge: usize = 0;
        let mut is_second = false;
        for unit in &units {
            if *unit >= 8 {
                edges[edge] = *unit - 8;
                edge += 1;
            } else {
                if !is_second {
                    corners[corner] = *unit;
                    corner += 1;
                }
                is_second = !is_second;
            }
        }
        (corners, edges)
    }
}
