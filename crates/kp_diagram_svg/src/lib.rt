//! The pipeline diagram of a run as a picture in SVG 1.1, from its rows and stall words. The writers allocate nothing.
//!
//! `specs/Picture.antt` defines the picture over the figure of a chart: which fixed texts it consists of (`texts.rt`), and what fills their holes. Each cell is
//! a reference to the colour of its stage, one to the look of its mark, and a name, so the coordinates of a cell are one number. No colour says anything that a
//! name, hatching, an edge or a cross doesn't say too.
#![tactic(auto)]

mod cells;
mod columns;
mod foot;
mod head;
mod picture;
mod rows;
mod texts;

pub use cells::name_piece;
pub use picture::{put_svg, write_svg};
