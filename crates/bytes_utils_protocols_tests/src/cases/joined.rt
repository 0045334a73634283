//! Parts that are put together from the events of a `PartStream`.
use bytes::{Buf, Bytes};
use bytes_utils::{Reason, SegmentedBuf};
use bytes_utils_protocols::multipart::{Limits, Part, PartError, PartEvent, PartHead, PartStream};
use std::alloc::Global;
use std::mem::replace;

/// A stream of parts, and what was given of the next part.
#[derive(Drop)]
pub(super) struct JoinedParts {
    alloc: Global,
    pub(super) parts: PartStream,
    head: Option<PartHead>,
    body: SegmentedBuf<Bytes>,
    /// A piece of the body for which there was no memory.
    left: Option<Bytes>,
}

impl JoinedParts {
    pub(super) fn new(
        alloc: Global,
        boundary: &[u8],
        limits: Limits,
    ) -> Result<JoinedParts, Reason> {
        Ok(JoinedParts {
            alloc,
            parts: PartStream::new(alloc, boundary, limits)?,
            head: None,
            body: SegmentedBuf::new(alloc),
            left: None,
        })
    }

    /// Asks for events up to the end of a part.
    pub(super) fn next_part(&mut self) -> Result<Option<Part>, PartError> {
        if let Some(piece) = self.left.take() {
            self.add(piece)?;
        }
        for _ in 0..self.parts.remaining().saturating_add(1) {
            match self.parts.next_event()? {
                Some(PartEvent::Head(head)) => self.head = Some(head),
                Some(PartEvent::Body(piece)) => self.add(piece)?,
                Some(PartEvent::End) => return Ok(self.take()),
                None => return Ok(None),
            }
        }
        Ok(None)
    }

    /// Adds a piece to the body, or keeps it for the next call.
    fn add(&mut self, piece: Bytes) -> Result<(), Reason> {
        match self.body.try_push(piece) {
            Ok(()) => Ok(()),
            Err(refused) => {
                self.left = Some(refused.back);
                Err(refused.reason)
            }
        }
    }

    /// The part that has ended, or `None` if it had no head.
    fn take(&mut self) -> Option<Part> {
        let body = replace(&mut self.body, SegmentedBuf::new(self.alloc));
        let PartHead {
            text,
            name,
            file_name,
        } = self.head.take()?;
        Some(Part {
            head: text,
            name,
            file_name,
            body,
        })
    }
}
