//! The device that a member's copies lie on: its calls, which may fail, and one in memory.
#![tactic(auto)]

mod call_count;
mod call_kind;
mod failing_call;
mod item;
mod medium;
mod medium_error;
mod omap_page;
mod paging;
mod parts;
mod ram_medium;

pub use call_count::CallCount;
pub use call_kind::CallKind;
pub use failing_call::FailingCall;
pub use item::Item;
pub use medium::Medium;
pub use medium_error::MediumError;
pub use omap_page::OmapPage;
pub use paging::PAGE_PAIRS;
pub use ram_medium::RamMedium;
