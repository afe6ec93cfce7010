//! The files of a directory that are still to be synced. None is left out but against what its sync handed out.
ghost use Rattle.std.specs.Prelude.{◌≡◌, ◌++◌, ◌∷◌, [], MatchOption, length, string_bytes};
ghost use Rattle.std.specs.List.{IsLastAndRest};
ghost use Rattle.unix_host.specs.inside.Paths.{file_in};

use crate::paths::Paths;
use crate::synced::Synced;
use host_calls::Name;

/// The files of a directory that were listed, and those of them that are still to be synced.
#[derive(Drop)]
pub struct FilesLeft<'a> {
    paths: &'a Paths,
    listed: &'a [Name],
    left: &'a [Name],
}

impl<'a> FilesLeft<'a> {
    /// All that were listed.
    pub fn all(paths: &'a Paths, listed: &'a [Name]) -> FilesLeft<'a>
        ensures paths { result.paths.now ≡ paths.now }
        ensures listed { result.listed.now ≡ listed.now }
        ensures left { result.left.now ≡ listed.now }
    {
        FilesLeft {
            paths,
            listed,
            left: listed,
        }
    }

    /// The last of them and those before it, if one is left.
    pub fn last(&self) -> Option<(&'a Name, &'a [Name])>
        ensures { MatchOption result (length self.now.left.now ≡ 0)
            (λ last. IsLastAndRest self.now.left.now last.0.now last.1.now) }
    {
        self.left.split_last()
    }

    /// Those before the last, which was synced.
    pub fn before(self, left: &'a [Name], last: &Name, file: Synced<'_>) -> FilesLeft<'a>
        requires last { self.left.now ≡ left.now ++ last.now ∷ [] }
        requires synced { file.path.now ≡ file_in (string_bytes self.paths.now.directory) last.now }
        ensures paths { result.paths.now ≡ self.entry.paths.now }
        ensures listed { result.listed.now ≡ self.entry.listed.now }
        ensures left { result.left.now ≡ left.now }
    {
        let _ = last;
        drop(file);
        let FilesLeft {
            paths,
            listed,
            left: _,
        } = self;
        FilesLeft {
            paths,
            listed,
            left,
        }
    }
}
