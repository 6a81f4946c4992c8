// The VRF that routes are planned for.

// Its family; the prefixes by which the class of its groups is told; the originator and the route distinguisher of its routes.
#[derive(Clone, Copy)]
pub struct Vrf<'a> {
    pub(crate) afi: u16,
    pub(crate) prefixes: &'a [u8],
    pub(crate) originator: &'a [u8],
    pub(crate) distinguisher: &'a [u8],
}
