// The kit for C: a chip is `at::SIZE` bytes of crate `chip_bytes` that the caller keeps, and each exported function answers for every byte and length
// that it can be lent. include/crepulanter.h is the other side of this interface. As a library this crate gives C no symbol: crate
// `crepulanter_c` calls each function under the same name in the archive.
#![tactic(auto)]

mod acts;
mod chips;
mod maps;
mod records;
mod sending;

pub use chips::{crep_event, crep_new, crep_power_up, crep_recover, crep_run};
pub use maps::{crep_map_build, crep_map_event, crep_map_first, crep_map_power_up, crep_map_run};
pub use records::{crep_name, crep_record_limits, crep_record_read, crep_record_write};
pub use sending::crep_send;
