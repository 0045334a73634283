//! What a call returns and leaves if its memory is refused. Each of these tests passes whichever
//! single request of its run is refused, and then prints which call made it. A test that can't make
//! its buffers passes too.
mod buf;
mod copy;
mod packed;
mod rows;
