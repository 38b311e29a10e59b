//! Devices whose failures are counted, and the frames of an input.
//!
//! A reader gives its bytes in pieces of any size. `Input` collects them in one buffer, from which
//! frames are taken: a frame is whole there, up to the first byte that ends it, or more bytes are
//! read after its first ones. The definition (`frames`) splits the whole input at once; the
//! contract says that the frames taken call by call are these, whatever the pieces were. Frames
//! that have ended in the bytes read stay frames, however the input continues, so each can be
//! answered before the next byte is there.
//!
//! `Counted` is a device with the number of its calls that failed or took no byte, by which
//! contracts say where a fault came from. `write_bytes` is the one loop that writes.
#![tactic(auto)]

mod counted;
mod fault;
mod frame_block;
mod frame_queue;
mod input;
mod intake;
pub mod laws;
mod next_frame;

pub use counted::{Counted, ReadFailure, WriteFault, write_bytes};
pub use fault::IntakeFault;
pub use frame_queue::FrameQueue;
pub use input::{Input, MAX_INPUT};
pub use intake::{Frame, Intake};
pub use next_frame::take_frame;
