//! A search that goes on where it stopped.
ghost use Rattle.std.specs.Prelude.{◌≡◌, ◌<◌, length, IfOk, IfErr, IfNone, OnSome};
ghost use Rattle.std.specs.List.{concat};
ghost use Rattle.memchr.specs.Find.{FindsNeedle};
ghost use Rattle.bytes_utils_codec.specs.Search.{search_from_front, searched_all, searching};

use crate::find::find_prepared;
use bytes::Buf;
use bytes_utils_buf::Reason;
use bytes_utils_buf::contiguous::ContiguousBuf;
use bytes_utils_buf::segmented::SegmentedBuf;
use memchr::memmem::Finder;
use std::alloc::Global;
use std::marker::Model;

/// A search for a needle in bytes that come in pieces. The needle is prepared once.
///
/// ```text
/// let mut search = Search::new(alloc, b"\r\n")?;
/// search.find(&held)               // `None`, of the bytes `GET / HTTP/1.1\r`
/// held.push(next)?;                // a `Bytes` of `\nHost`
/// search.find(&held)               // `Some(14)`: looks at nothing before the carriage return
/// ```
///
/// While the needle isn't there no byte is looked at twice, but for the last ones, fewer than the
/// needle has, in which it may begin. Each call steps over the segments between these and the nearer
/// end. After bytes are taken from the front, call `restart`.
#[derive(Debug, Drop)]
pub struct Search {
    finder: Finder<'static>,
    window: Vec<u8>,
    searched: usize,
}

impl Model for Search {
    ghost use Rattle.std.specs.Prelude.{◌-◌, ◌*◌, ◌<◌, ◌≤◌, length};
    ghost use Rattle.bytes_utils_codec.specs.Search.{Searching};

    ghost Value = { Searching };

    ghost view = { λ s. record { needle = s.finder; searched = s.searched } };

    ghost invariant = { λ s. (0 < length s.finder)
        × (2 * (length s.finder - 1) ≤ length s.window.items) };
}

impl Search {
    /// Makes a search that has looked at no byte. It copies `needle`, and makes a window of less
    /// than twice its length, in which it is searched for across segments. Requires that `needle` is
    /// not empty (test: `is_empty`). Fails with `OutOfMemory` if memory is refused.
    pub fn new(alloc: Global, needle: &[u8]) -> Result<Search, Reason>
        requires { 0 < length needle.now }
        ensures ok { IfOk result (λ search. search ≡ searching needle.now) }
        ensures reason { IfErr result (λ reason. reason ≡ Reason.OutOfMemory) }
    {
        Ok(Search {
            finder: Finder::new(needle).into_owned(alloc)?,
            window: vec![in alloc; 0; 2 * (needle.len() - 1)]?,
            searched: 0,
        })
    }

    /// Returns the needle.
    pub fn needle(&self) -> &[u8]
        ensures value { result.now ≡ self.now.needle }
        ensures some { 0 < length self.now.needle }
    {
        self.finder.needle()
    }

    /// Returns the first place of the needle from place `searched` on, or `None` if it is not there;
    /// then the next call begins where it may still begin.
    pub fn find<B: ContiguousBuf + Drop>(&mut self, held: &SegmentedBuf<B>) -> Option<usize>
        ensures found { FindsNeedle (concat held.now.segments)
            self.old.needle self.old.searched result }
        ensures some { OnSome result (self.new ≡ self.old) }
        ensures none { IfNone result (self.new ≡ searched_all self.old (concat held.now.segments)) }
        ensures needle { 0 < length self.old.needle }
    {
        let found = find_prepared(held, self.searched, &self.finder, &mut self.window);
        if found.is_none() {
            let most = self.finder.needle().len() - 1;
            self.searched = self.searched.max(held.remaining().saturating_sub(most));
        }
        found
    }

    /// Returns the place from which the next call searches.
    pub fn searched(&self) -> usize
        ensures { result ≡ self.now.searched }
    {
        self.searched
    }

    /// Searches from `place` on.
    pub fn search_from(&mut self, place: usize)
        ensures { self.new ≡ record self.old { searched = place } }
    {
        self.searched = place;
    }

    /// Searches from the front.
    pub fn restart(&mut self)
        ensures { self.new ≡ search_from_front self.old }
    {
        self.search_from(0);
    }
}
