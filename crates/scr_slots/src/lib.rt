//! The slots of sheets: what each event is, its tables, and the answer of a slot.
//!
//! `specs/Events.antt` is the one place that says by puzzle what a slot draws, what its scramble is and what is
//! promised of it; the sheet and its fairness cite it. [`Tables`] are those of a list's events, each family's built
//! once; that they are built says that each event is drawn fairly (of random moves, that each step is fair). A slot
//! has a stream of the seed to itself: its state is drawn from the stream's words, and its scramble is that state's. An
//! event of random moves reads its turns from the stream's words.
//!
//! What an event gives is in code an impl of `StateEvent` or of `MoveEvent`. What is wanted of events is a `Question`:
//! the answer of a slot ([`slot_answer`]), whether a text agrees with it ([`slot_agrees`]), and whether an event is
//! drawn fairly. Each has one body for all events whose states are drawn and one for all of random moves, proved once;
//! `ask` puts it to an event, and is the one place in code that tells by puzzle who answers. The contracts say that the
//! answer is exactly the one that the definitions give: a scramble, or that there is none. No two slots of a list
//! share a stream ([`laws::no_shared_stream`]), and a slot has one answer (`scr_run_laws`).
#![tactic(auto)]

mod agreement;
mod asking;
mod cube_tables;
mod event;
mod families;
pub mod laws;
mod moves;
mod settings;
mod slot;
mod states;
mod table_texts;
mod tables;

pub use agreement::slot_agrees;
pub use settings::{Effort, Settings};
pub use slot::slot_answer;
pub use table_texts::write_tables_of;
pub use tables::Tables;
