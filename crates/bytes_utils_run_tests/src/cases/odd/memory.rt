//! The state after a refused request for memory. With enough memory none is refused; a run that
//! refuses one prints a line for it.
use bytes::{Buf, BytesMut};
use bytes_utils::parts::BufParts;
use bytes_utils::string::Storage;
use bytes_utils_run::odd::{RefuseAfter, Zeros};
use std::test::Fail;

// A refused copy has taken nothing, and the next one takes all.
#[test]
fn odd_zeros_if_memory_is_refused(rt: HostRuntime) -> Result<(), Fail> {
    for count in [9, 100_000] {
        let mut zeros = Zeros::new(100_011);
        let mut copy = zeros.copy_out(rt.alloc(), count).ok();
        if copy.is_none() {
            println!(rt; "refused copy_out of Zeros")?;
            copy = zeros.copy_out(rt.alloc(), count).ok();
        }
        let copy = copy.ok_or("refused again")?;
        assert!(rt; copy.as_slice().iter().all(|byte| *byte == 0) && copy.len() == count);
        assert!(rt; zeros.remaining() == 100_011 - count);
    }
    Ok(())
}

// The creator that a refusal returns makes a storage in the next call.
#[test]
fn odd_storage_if_memory_is_refused(rt: HostRuntime) -> Result<(), Fail> {
    let Ok(creator) = BytesMut::copy_from_slice(rt.alloc(), b"hello") else {
        return Ok(());
    };
    let made = match RefuseAfter::from_creator(creator) {
        Ok(made) => Some(made),
        Err(refused) => {
            println!(rt; "refused from_creator of RefuseAfter")?;
            RefuseAfter::from_creator(refused.back).ok()
        }
    };
    assert!(rt; made.ok_or("refused again")?.as_bytes() == b"hello".as_slice());
    Ok(())
}
