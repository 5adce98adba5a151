//! The table of subcommands: what each is called, and what it takes.
ghost use Rattle.std.specs.Prelude.{◌≡◌};
ghost use Rattle.pure_words.specs.Table as spec;

/// The subcommands.
#[derive(Clone, Copy, Debug, PartialEq, Eq)]
pub(crate) enum Subcommand {
    Check,
    Generate,
    Places,
    Axioms,
    Graph,
    Show,
    Replay,
    Find,
    Try,
}

/// A row of the table: the options and flags that a subcommand takes, and how many arguments, of which there are three at most.
#[derive(Clone, Copy, Debug)]
pub(crate) struct Takes {
    pub(crate) jobs: bool,
    pub(crate) cancel: bool,
    pub(crate) fail_fast: bool,
    pub(crate) arguments: usize,
}

/// The subcommand's name.
pub(crate) fn name_of<'a>(subcommand: Subcommand) -> &'a str
    ensures { result.now ≡ spec.name_of subcommand }
{
    match subcommand {
        Subcommand::Check => "check",
        Subcommand::Generate => "generate",
        Subcommand::Places => "places",
        Subcommand::Axioms => "axioms",
        Subcommand::Graph => "graph",
        Subcommand::Show => "show",
        Subcommand::Replay => "replay",
        Subcommand::Find => "find",
        Subcommand::Try => "try",
    }
}

/// The subcommand's row.
pub(crate) fn row_of(subcommand: Subcommand) -> Takes
    ensures { result ≡ spec.row_of subcommand }
{
    match subcommand {
        Subcommand::Check => Takes {
            jobs: true,
            cancel: true,
            fail_fast: true,
            arguments: 0,
        },
        Subcommand::Generate => Takes {
            jobs: true,
            cancel: false,
            fail_fast: false,
            arguments: 3,
        },
        Subcommand::Places => Takes {
            jobs: true,
            cancel: false,
            fail_fast: false,
            arguments: 0,
        },
        Subcommand::Axioms => Takes {
            jobs: true,
            cancel: false,
            fail_fast: false,
            arguments: 1,
        },
        Subcommand::Graph => Takes {
            jobs: true,
            cancel: false,
            fail_fast: false,
            arguments: 0,
        },
        Subcommand::Show => Takes {
            jobs: false,
            cancel: false,
            fail_fast: false,
            arguments: 1,
        },
        Subcommand::Replay => Takes {
            jobs: false,
            cancel: false,
            fail_fast: false,
            arguments: 1,
        },
        Subcommand::Find => Takes {
            jobs: false,
            cancel: false,
            fail_fast: false,
            arguments: 1,
        },
        Subcommand::Try => Takes {
            jobs: true,
            cancel: false,
            fail_fast: false,
            arguments: 1,
        },
    }
}

/// The subcommand of this name.
#[tactic(auto, unfolding(crate::specs::Table::subcommand_named))]
pub(crate) fn subcommand_named(name: &[u8]) -> Option<Subcommand>
    ensures { result ≡ spec.subcommand_named name.now }
{
    if name == b"check".as_slice() {
        return Some(Subcommand::Check);
    }
    if name == b"generate".as_slice() {
        return Some(Subcommand::Generate);
    }
    if name == b"places".as_slice() {
        return Some(Subcommand::Places);
    }
    if name == b"axioms".as_slice() {
        return Some(Subcommand::Axioms);
    }
    if name == b"graph".as_slice() {
        return Some(Subcommand::Graph);
    }
    if name == b"show".as_slice() {
        return Some(Subcommand::Show);
    }
    if name == b"replay".as_slice() {
        return Some(Subcommand::Replay);
    }
    if name == b"find".as_slice() {
        return Some(Subcommand::Find);
    }
    if name == b"try".as_slice() {
        return Some(Subcommand::Try);
    }
    None
}
