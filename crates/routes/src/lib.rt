// What calls on a route table answer. The definitions and theorems about tables stand in specs/ and proofs/.
#![tactic(auto)]

ghost use Rattle.std.specs.Prelude.{◌≡◌};
ghost use Rattle.routes.specs.Answers.{refused_install, done_install, installed_by, refused_restart, restarted_by, empty_match, matched_told};
ghost use Rattle.routes.specs.Reasons.{refused_explanation, reason_numbers, explained_told};
ghost use Rattle.routes.specs.Next.{empty_next, following_told};
ghost use Rattle.routes.specs.Info.{empty_info, facts_by};
ghost use Rattle.routes.specs.Salvage.{drop_octet, empty_salvage, salvaged_by};

use octets::number::DONE;
use octets::refusal::Refusal;

// What an install did: the NLRI was not held, or it was, and has this attribute now.
#[derive(Clone, Copy, Debug, PartialEq, Eq)]
pub enum Installation {
    New = 1,
    Replaced = 2,
}

// What install answers: DONE with the number of what it did, or the refusal's number and 0.
#[repr(C)]
#[derive(Clone, Copy)]
pub struct Installed {
    pub number: u32,
    pub outcome: u32,
}

impl Installed {
    // An install that is refused.
    pub fn refused(number: u32) -> Installed
        ensures { result ≡ refused_install number }
    {
        Installed { number, outcome: 0 }
    }

    // An install that is done, with the number of what it did.
    pub fn done(outcome: u32) -> Installed
        ensures { result ≡ done_install outcome }
    {
        Installed {
            number: DONE,
            outcome,
        }
    }
}

impl From<Result<Installation, Refusal>> for Installed {
    ghost from_gives = { λ done installed. installed ≡ installed_by done };

    fn from(done: Result<Installation, Refusal>) -> Installed {
        match done {
            Ok(installation) => Installed::done(installation as u32),
            Err(refusal) => Installed::refused(refusal.number()),
        }
    }
}

// What mark and sweep answer: DONE with how many routes went, or the refusal's number and 0.
#[repr(C)]
#[derive(Clone, Copy)]
pub struct Restarted {
    pub number: u32,
    pub gone: u32,
}

impl Restarted {
    // A call that is refused.
    pub fn refused(number: u32) -> Restarted
        ensures { result ≡ refused_restart number }
    {
        Restarted { number, gone: 0 }
    }
}

impl From<Result<u32, Refusal>> for Restarted {
    ghost from_gives = { λ done restarted. restarted ≡ restarted_by done };

    fn from(done: Result<u32, Refusal>) -> Restarted {
        match done {
            Ok(gone) => Restarted { number: DONE, gone },
            Err(refusal) => Restarted::refused(refusal.number()),
        }
    }
}

// The tiers of a flow, in the order in which they win.
#[derive(Clone, Copy, Debug, PartialEq, Eq, PartialOrd, Ord)]
pub enum Tier {
    Exact = 1,
    AnyGroup = 2,
    AnySource = 3,
    Any = 4,
}

// The route that a match takes: its tier, and the sizes of its NLRI and its attribute.
#[derive(Clone, Copy)]
pub struct MatchedRoute {
    pub tier: Tier,
    pub nlri_size: u32,
    pub attribute_size: u32,
}

// What match answers: DONE with the tier and both sizes, all 0 where no route matches, or the refusal's number and 0.
#[repr(C)]
#[derive(Clone, Copy)]
pub struct Matched {
    pub number: u32,
    pub tier: u32,
    pub nlri_size: u32,
    pub attribute_size: u32,
}

impl Matched {
    // A match that is refused.
    pub fn refused(number: u32) -> Matched
        ensures { result ≡ empty_match number }
    {
        Matched {
            number,
            tier: 0,
            nlri_size: 0,
            attribute_size: 0,
        }
    }

    // A match that finds no route.
    pub fn none() -> Matched
        ensures { result ≡ empty_match 0 }
    {
        Matched::refused(DONE)
    }
}

impl From<Result<Option<MatchedRoute>, Refusal>> for Matched {
    ghost from_gives = { λ told matched. matched ≡ matched_told told };

    fn from(told: Result<Option<MatchedRoute>, Refusal>) -> Matched {
        match told {
            Ok(Some(route)) => Matched {
                number: DONE,
                tier: route.tier as u32,
                nlri_size: route.nlri_size,
                attribute_size: route.attribute_size,
            },
            Ok(None) => Matched::none(),
            Err(refusal) => Matched::refused(refusal.number()),
        }
    }
}

// Why a tier was taken or not.
#[derive(Clone, Copy, Debug, PartialEq, Eq)]
pub enum Reason {
    Taken = 1,
    NoSuchRoute = 2,
    WrongGroupClass = 3,
    EarlierTierWon = 4,
}

// Why each tier was taken or not.
#[derive(Clone, Copy)]
pub struct Reasons {
    pub exact: Reason,
    pub any_group: Reason,
    pub any_source: Reason,
    pub any: Reason,
}

impl Reasons {
    // Their numbers, in the order of the tiers.
    fn numbers(self) -> [u32; 4]
        ensures { result ≡ reason_numbers self }
    {
        [
            self.exact as u32,
            self.any_group as u32,
            self.any_source as u32,
            self.any as u32,
        ]
    }
}

// The route that a flow's match takes, if any, and why each tier was taken or not.
#[derive(Clone, Copy)]
pub struct Explanation {
    pub route: Option<MatchedRoute>,
    pub reasons: Reasons,
}

// What explain answers: match's whole answer, and of tiers 1 to 4 in turn why it was taken or not; on a refusal all reasons are 0.
#[repr(C)]
#[derive(Clone, Copy)]
pub struct Explained {
    pub matched: Matched,
    pub reasons: [u32; 4],
}

impl Explained {
    // A refusal, of which there is no reason to tell.
    pub fn refused(number: u32) -> Explained
        ensures { result ≡ refused_explanation number }
    {
        Explained {
            matched: Matched::refused(number),
            reasons: [0; 4],
        }
    }
}

impl From<Result<Explanation, Refusal>> for Explained {
    ghost from_gives = { λ told explained. explained ≡ explained_told told };

    fn from(told: Result<Explanation, Refusal>) -> Explained {
        match told {
            Ok(explanation) => Explained {
                matched: Matched::from(Ok(explanation.route)),
                reasons: explanation.reasons.numbers(),
            },
            Err(refusal) => Explained::refused(refusal.number()),
        }
    }
}

// The route that comes next: the sizes of its NLRI and its attribute, and whether it is marked stale.
#[derive(Clone, Copy)]
pub struct NextRoute {
    pub nlri_size: u32,
    pub attribute_size: u32,
    pub is_stale: bool,
}

// What next answers: DONE with both sizes and the mark, 1 where the route is marked stale, all 0 where no route comes after, or the
// refusal's number and 0.
#[repr(C)]
#[derive(Clone, Copy)]
pub struct Following {
    pub number: u32,
    pub nlri_size: u32,
    pub attribute_size: u32,
    pub stale: u32,
}

impl Following {
    // A call that is refused.
    pub fn refused(number: u32) -> Following
        ensures { result ≡ empty_next number }
    {
        Following {
            number,
            nlri_size: 0,
            attribute_size: 0,
            stale: 0,
        }
    }

    // No route comes after.
    pub fn none() -> Following
        ensures { result ≡ empty_next 0 }
    {
        Following::refused(DONE)
    }
}

impl From<Result<Option<NextRoute>, Refusal>> for Following {
    ghost from_gives = { λ told following. following ≡ following_told told };

    fn from(told: Result<Option<NextRoute>, Refusal>) -> Following {
        match told {
            Ok(Some(route)) => Following {
                number: DONE,
                nlri_size: route.nlri_size,
                attribute_size: route.attribute_size,
                stale: route.is_stale as u32,
            },
            Ok(None) => Following::none(),
            Err(refusal) => Following::refused(refusal.number()),
        }
    }
}

// A sound table's family, its places, and how many routes are in them.
#[derive(Clone, Copy)]
pub struct TableContents {
    pub afi: u32,
    pub places: u32,
    pub routes: u32,
}

// What a table says of itself: DONE with what it has, or the refusal's number and 0.
#[repr(C)]
#[derive(Clone, Copy)]
pub struct TableFacts {
    pub number: u32,
    pub afi: u32,
    pub places: u32,
    pub routes: u32,
}

impl TableFacts {
    // A call that is refused.
    pub fn refused(number: u32) -> TableFacts
        ensures { result ≡ empty_info number }
    {
        TableFacts {
            number,
            afi: 0,
            places: 0,
            routes: 0,
        }
    }
}

impl From<Result<TableContents, Refusal>> for TableFacts {
    ghost from_gives = { λ told facts. facts ≡ facts_by told };

    fn from(told: Result<TableContents, Refusal>) -> TableFacts {
        match told {
            Ok(contents) => TableFacts {
                number: DONE,
                afi: contents.afi,
                places: contents.places,
                routes: contents.routes,
            },
            Err(refusal) => TableFacts::refused(refusal.number()),
        }
    }
}

// Why salvage drops a place: it is bad, or it repeats the NLRI of a good place before it.
#[derive(Clone, Copy, Debug, PartialEq, Eq)]
pub enum DropReason {
    Bad = 1,
    Repeated = 2,
}

impl From<DropReason> for u8 {
    ghost from_gives = { λ reason octet. octet ≡ drop_octet reason };

    fn from(reason: DropReason) -> u8 {
        reason as u8
    }
}

// How many routes salvage keeps, and how many places it drops.
#[derive(Clone, Copy)]
pub struct SalvageCounts {
    pub kept: u32,
    pub dropped: u32,
}

// What salvage answers: DONE with its counts, or the refusal's number and 0.
#[repr(C)]
#[derive(Clone, Copy)]
pub struct Salvaged {
    pub number: u32,
    pub kept: u32,
    pub dropped: u32,
}

impl Salvaged {
    // A call that is refused.
    pub fn refused(number: u32) -> Salvaged
        ensures { result ≡ empty_salvage number }
    {
        Salvaged {
            number,
            kept: 0,
            dropped: 0,
        }
    }
}

impl From<Result<SalvageCounts, Refusal>> for Salvaged {
    ghost from_gives = { λ done salvaged. salvaged ≡ salvaged_by done };

    fn from(done: Result<SalvageCounts, Refusal>) -> Salvaged {
        match done {
            Ok(counts) => Salvaged {
                number: DONE,
                kept: counts.kept,
                dropped: counts.dropped,
            },
            Err(refusal) => Salvaged::refused(refusal.number()),
        }
    }
}
