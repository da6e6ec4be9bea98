ghost use Rattle.std.specs.Prelude.{◌≡◌};
ghost use Rattle.cfm_prepare.specs.Made.{choices_of};
ghost use Rattle.cfm_prepare.specs.Options.{usual_choices, usual_limit};

use cfm_memory::Granule;

/// The limit of a context, if no other is asked for.
const USUAL_LIMIT: u32 = 0x1000_0000;

/// How many connections a context gives in all, if no other number is asked for.
const MOST_CONNECTIONS: u32 = 65_536;

/// What a context is made with.
#[derive(Clone, Copy, Debug)]
pub struct Options {
    /// The address that no section may exceed.
    pub limit: u32,
    /// The granule: sections begin at multiples of it, and take multiples of it.
    pub granule: Granule,
    /// How many connections the context gives in all. A closed one counts, and takes no memory.
    pub connections: u32,
    /// How many steps the relocation programs of one preparation may take together; `None` if there is no bound.
    pub steps: Option<u64>,
    /// How many bytes the new sections of one preparation may take together; `None` if there is no bound.
    pub bytes: Option<u64>,
}

impl Options {
    /// Returns the usual options: the limit 10000000 (hex), a granule of 16 bytes, 65,536 connections, and no bound for
    /// steps and bytes.
    pub fn new() -> Options
        ensures { choices_of result ≡ usual_choices usual_limit }
    {
        Options {
            limit: USUAL_LIMIT,
            granule: Granule::least(),
            connections: MOST_CONNECTIONS,
            steps: None,
            bytes: None,
        }
    }

    /// Returns the usual options with another limit.
    pub fn with_limit(limit: u32) -> Options
        ensures { choices_of result ≡ usual_choices limit }
    {
        Options {
            limit,
            ..Options::new()
        }
    }
}
