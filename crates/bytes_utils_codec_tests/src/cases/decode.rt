//! What no clause covers: worked cases, what is shared, and that calls succeed with ample memory.
mod cuts;
mod delimited;
mod framed;
mod length_prefixed;
mod lines;
mod made;
mod memory;
mod read;
mod rows;
mod universal_lines;
