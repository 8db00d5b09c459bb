// The frame pool: the buffer pool of stratum-mining/stratum (`buffer_sv2`), over a record by value and two lent memories.
// Every function here is proved to meet its contract. No public function has a `requires`: a call refuses by number, and a
// refused call changes nothing.
#![tactic(auto)]

pub mod buffer_pool;
mod calls;
mod guard;
mod inner_memory;
pub mod lent;
pub mod numbers;
mod placing;
mod pool_back;
mod pool_front;
pub mod refusals;
mod route;
pub mod slice;
pub mod sound;
mod steps;
mod views;
