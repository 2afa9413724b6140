//! What a search is asked to do.
ghost use Rattle.std.specs.Prelude.{◌≡◌};

use crate::options::Options;
use crate::output::request::FileRequest;
use std::alloc::Global;

/// What is asked of a search, besides its sources and its matchers.
#[derive(Clone, Copy)]
pub struct SearchRequest {
    /// Where memory comes from.
    pub alloc: Global,
    /// The options of the run. `-i` is for the matchers to heed.
    pub options: Options,
}

/// What the search of a source is asked to do.
#[derive(Clone, Copy)]
pub struct SourceRequest<'a> {
    /// What is asked of the search of all sources.
    pub search: &'a SearchRequest,
    /// The source's place among all, counted from 0.
    pub place: usize,
    /// Whether rows and counts begin with the source's name.
    pub many: bool,
    /// Whether a line of an earlier source is selected: where lines around selected ones are shown,
    /// a separator is then written before the first group.
    pub shown: bool,
}

impl SourceRequest<'_> {
    /// What is asked of the source's lines, by its name.
    pub fn of_file<'n>(&self, name: &'n [u8]) -> FileRequest<'n>
        ensures options { result.options ≡ self.now.search.now.options }
        ensures many { result.many ≡ self.now.many }
        ensures name { result.name ≡ name.entry }
    {
        FileRequest {
            options: self.search.options,
            many: self.many,
            name,
        }
    }
}
