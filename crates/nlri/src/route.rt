// Route types (RFC 6514, section 4; RFC 7441, section 3): their code points, named once, and the tests of a type.
ghost use Rattle.std.specs.Prelude.{◌≡◌};
ghost use Rattle.nlri.specs.Bodies.{TypeTold};
ghost use Rattle.nlri.specs.Inner.{with_key, with_fec, with_source_as, is_mldp};

use octets::refusal::Refusal;

#[derive(Clone, Copy, Debug, PartialEq, Eq)]
pub enum RouteType {
    IntraAsIPmsi = 1,
    InterAsIPmsi = 2,
    SPmsi = 3,
    Leaf = 4,
    SourceActive = 5,
    SharedTreeJoin = 6,
    SourceTreeJoin = 7,
    MldpSPmsi = 0x43,
    MldpLeaf = 0x44,
    MldpSourceTreeJoin = 0x47,
}

// Their code points.
impl RouteType {
    pub const INTRA_AS_I_PMSI: usize = RouteType::IntraAsIPmsi as usize;

    pub const INTER_AS_I_PMSI: usize = RouteType::InterAsIPmsi as usize;

    pub const S_PMSI: usize = RouteType::SPmsi as usize;

    pub const LEAF: usize = RouteType::Leaf as usize;

    pub const SOURCE_ACTIVE: usize = RouteType::SourceActive as usize;

    pub const SHARED_TREE_JOIN: usize = RouteType::SharedTreeJoin as usize;

    pub const SOURCE_TREE_JOIN: usize = RouteType::SourceTreeJoin as usize;

    pub const MLDP_S_PMSI: usize = RouteType::MldpSPmsi as usize;

    pub const MLDP_LEAF: usize = RouteType::MldpLeaf as usize;

    pub const MLDP_SOURCE_TREE_JOIN: usize = RouteType::MldpSourceTreeJoin as usize;
}

// TYPE.
impl TryFrom<usize> for RouteType {
    type Error = Refusal;

    ghost try_from_gives = { TypeTold };

    fn try_from(route_type: usize) -> Result<RouteType, Refusal> {
        match route_type {
            1 => Ok(RouteType::IntraAsIPmsi),
            2 => Ok(RouteType::InterAsIPmsi),
            3 => Ok(RouteType::SPmsi),
            4 => Ok(RouteType::Leaf),
            5 => Ok(RouteType::SourceActive),
            6 => Ok(RouteType::SharedTreeJoin),
            7 => Ok(RouteType::SourceTreeJoin),
            0x43 => Ok(RouteType::MldpSPmsi),
            0x44 => Ok(RouteType::MldpLeaf),
            0x47 => Ok(RouteType::MldpSourceTreeJoin),
            _ => Err(Refusal::Type),
        }
    }
}

// A Leaf, of either kind, has a key, straight after the header, and no route distinguisher.
#[tactic(auto, using(octets::proofs::Tests::flags), unfolding(crate::specs::Inner::with_key))]
pub fn has_key(route_type: usize) -> bool
    ensures { result ≡ with_key route_type }
{
    route_type == RouteType::LEAF || route_type == RouteType::MLDP_LEAF
}

// Types 0x43 and 0x47 have a FEC.
#[tactic(auto, using(octets::proofs::Tests::flags), unfolding(crate::specs::Inner::with_fec))]
pub fn has_fec(route_type: usize) -> bool
    ensures { result ≡ with_fec route_type }
{
    route_type == RouteType::MLDP_S_PMSI || route_type == RouteType::MLDP_SOURCE_TREE_JOIN
}

// Types 2, 6, 7 and 0x47 have a source AS, behind the route distinguisher.
#[tactic(auto, using(octets::proofs::Tests::flags), unfolding(crate::specs::Inner::with_source_as))]
pub fn has_source_as(route_type: usize) -> bool
    ensures { result ≡ with_source_as route_type }
{
    route_type == RouteType::INTER_AS_I_PMSI
        || route_type == RouteType::SHARED_TREE_JOIN
        || route_type == RouteType::SOURCE_TREE_JOIN
        || route_type == RouteType::MLDP_SOURCE_TREE_JOIN
}

// The types of RFC 7441.
#[tactic(auto, using(octets::proofs::Tests::flags), unfolding(crate::specs::Inner::is_mldp))]
pub fn is_mldp(route_type: usize) -> bool
    ensures { result ≡ is_mldp route_type }
{
    route_type == RouteType::MLDP_S_PMSI
        || route_type == RouteType::MLDP_LEAF
        || route_type == RouteType::MLDP_SOURCE_TREE_JOIN
}
