//! `BufParts` and `ContiguousBuf` of the buffers of std and of the crate `bytes`.
mod borrowed;
mod boxed;
mod bytes_mut;
mod chain;
mod cursor;
mod deque;
mod pair;
mod queue;
mod take;
