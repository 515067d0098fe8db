//! The parts of `qcsim`: its arguments and its trace, the policies that the cache is compared with,
//! and how the shares of hits are shown, as a table or as a chart.
#![tactic(auto)]

pub mod arguments;
pub mod chart;
pub mod hits;
pub mod line;
pub mod policies;
pub mod table;
pub mod trace;

pub use arguments::{Arguments, Form, Shares, read_arguments};
pub use chart::write_chart;
pub use hits::{Hits, Policy};
pub use line::{Flaw, Format};
pub use policies::{
    arc_hits, best_hits, clock_hits, fifo_hits, lru_hits, s3_fifo_hits, tiny_lfu_hits,
};
pub use table::{write_counts, write_table};
pub use trace::{BadLine, BadTrace, Reading, Trace, read_trace};
