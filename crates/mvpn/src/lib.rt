// The calls from C, as include/mvpn.h declares them. Each calls one function, and its contract cites the same definition.
#![tactic(auto)]

ghost use Rattle.std.specs.Prelude.{◌≡◌, ◌+◌, ◌*◌, length};
ghost use Rattle.octets.specs.Outputs.{Wrote, Leaves};
ghost use Rattle.nlri.specs.Reading.{read_nlri};
ghost use Rattle.nlri.specs.Writing.{write_nlri};
ghost use Rattle.runs.specs.Walking.{step_from, refused_at};
ghost use Rattle.runs.specs.Modes.{walk_by};
ghost use Rattle.pieces.specs.Feeding.{start_of, feed_of, finish_of};
ghost use Rattle.nlri.specs.Groups.{group_of};
ghost use Rattle.groups.specs.Classes.{class_by};
ghost use Rattle.nlri.specs.Answers.{struct_fields, nlri_answer};
ghost use Rattle.tunnel.specs.Answers.{read_struct, write_outcome};
ghost use Rattle.routes.specs.Query.{flow_of};
ghost use Rattle.routes.specs.Asked.{of_flow, of_shared_tree};
ghost use Rattle.routes.specs.Calls.{make_of, install_of, withdraw_of, mark_of, sweep_of, match_of};
ghost use Rattle.routes.specs.Reasons.{explain_of};
ghost use Rattle.routes.specs.Next.{next_of};
ghost use Rattle.routes.specs.Info.{info_of};
ghost use Rattle.routes.specs.Salvage.{salvage_of, LeavesBoth};
ghost use Rattle.bier.specs.BierString.{egress_of};
ghost use Rattle.shared_trees.specs.Tree.{tree_of};
ghost use Rattle.plan.specs.Flows.{vrf_of};
ghost use Rattle.plan.specs.Calls.{judge_of, plan_of};
ghost use Rattle.mvpn.specs.Answers.{step_answer, attribute_given, attribute_refused, attribute_answer};

use bier::Egress;
use nlri::{Group, Layout, Nlri, NlriReading};
use octets::number::DONE;
use octets::{Span, Written};
use pieces::{Fed, Pieces, UnfinishedNlri};
use plan::{Judged, Planned};
use routes::{Explained, Following, Installed, Matched, Restarted, Salvaged, TableFacts};
use runs::{Cursor, Walked};
use shared_trees::TreeFacts;
use tunnel::Attribute;
use tunnel::fec::Fec;

// What a step answers: the number, the next cursor, and the layout of the NLRI read.
#[repr(C)]
#[derive(Clone, Copy)]
pub struct Stepped {
    pub number: u32,
    pub cursor: usize,
    pub layout: Layout,
}

#[tactic(auto, unfolding(crate::specs::Answers::step_answer, runs::specs::Walking::refused_at))]
impl Stepped {
    // No NLRI: a refusal, or the run's end, which the caller tells by DONE with route type 0.
    fn stopped(cursor: usize, number: u32) -> Stepped
        ensures { result ≡ step_answer (refused_at number cursor) }
    {
        Stepped {
            number,
            cursor,
            layout: Layout::none(),
        }
    }
}

// What reading an attribute answers: the number beside the fields.
#[repr(C)]
#[derive(Clone, Copy)]
pub struct AttributeReading {
    pub number: u32,
    pub flags: u32,
    pub tunnel_type: u32,
    pub label_field: u32,
    pub label: u32,
    pub leaf_information_required: u32,
    pub identifier: Span,
    pub fec: Fec,
}

impl AttributeReading {
    // An attribute that was read.
    fn read(fields: Attribute) -> AttributeReading
        ensures { result ≡ attribute_given fields }
    {
        let identifier = fields.identifier;
        let fec = fields.fec;
        AttributeReading {
            number: DONE,
            flags: fields.flags,
            tunnel_type: fields.tunnel_type,
            label_field: fields.label_field,
            label: fields.label,
            leaf_information_required: fields.leaf_information_required,
            identifier,
            fec,
        }
    }

    // An attribute that was refused.
    fn refused(number: u32) -> AttributeReading
        ensures { result ≡ attribute_refused number }
    {
        AttributeReading {
            number,
            flags: 0,
            tunnel_type: 0,
            label_field: 0,
            label: 0,
            leaf_information_required: 0,
            identifier: Span { start: 0, size: 0 },
            fec: Fec::none(),
        }
    }
}

// The version of the library, as the file VERSION has it: major, minor and patch, each an octet of the number.
#[unsafe(no_mangle)]
pub extern "C" fn mvpn_version() -> u32
    ensures { result ≡ 0 * 65536 + 18 * 256 + 0 }
{
    0 * 65536 + 18 * 256 + 0
}

// Reads a single NLRI.
#[unsafe(no_mangle)]
pub extern "C" fn mvpn_nlri_read(afi: u16, nlri: &[u8]) -> NlriReading
    ensures { result ≡ nlri_answer (read_nlri afi nlri.now) }
{
    nlri::read_nlri(afi, nlri)
}

// Writes an NLRI at the front of the output; the key is that of a Leaf, the FEC that of an mLDP customer's route.
#[unsafe(no_mangle)]
pub extern "C" fn mvpn_nlri_write(
    afi: u16,
    nlri: Nlri,
    key: &[u8],
    fec: &[u8],
    output: &mut [u8],
) -> Written
    ensures { Wrote (write_nlri afi (struct_fields nlri key.now fec.now) (length output.old)) output.old result output.new }
{
    nlri_writing::write_nlri(afi, nlri, key, fec, output)
}

// The NLRI of a run at the cursor: DONE with its layout; DONE with route type 0 at the run's end; or a refusal.
#[unsafe(no_mangle)]
pub extern "C" fn mvpn_step(afi: u16, run: &[u8], cursor: usize) -> Stepped
    ensures { result ≡ step_answer (step_from afi run.now cursor) }
{
    let at = Cursor { at: cursor };
    match at.step(afi, run) {
        Ok(Some(step)) => {
            return Stepped {
                number: DONE,
                cursor: step.next.at,
                layout: step.layout,
            };
        }
        Ok(None) => return Stepped::stopped(cursor, DONE),
        Err(refusal) => {
            let number = refusal.number();
            return Stepped::stopped(cursor, number);
        }
    }
}

// Walks a run to its end or its first refusal; in mode 0 unknown route types and Source Active routes that are discarded are skipped.
#[unsafe(no_mangle)]
pub extern "C" fn mvpn_walk(afi: u16, mode: u32, run: &[u8]) -> Walked
    ensures { result ≡ walk_by afi mode run.now }
{
    runs::walk(afi, mode, run)
}

// Starts a reader of a run that arrives in pieces, which goes by the walk of a mode.
#[unsafe(no_mangle)]
pub extern "C" fn mvpn_pieces_start(afi: u16, mode: u32) -> Pieces
    ensures { result ≡ start_of afi mode }
{
    Pieces::start(afi, mode)
}

// Hands over a piece, of which octets are taken up to the end of one NLRI.
#[unsafe(no_mangle)]
pub extern "C" fn mvpn_pieces_feed(
    reader: Pieces,
    unfinished: &mut UnfinishedNlri,
    piece: &[u8],
) -> Fed
    ensures { Leaves (feed_of reader unfinished.old piece.now) result unfinished.new }
{
    reader.feed(unfinished, piece)
}

// Ends the run: the reader afterwards has the walk's answer.
#[unsafe(no_mangle)]
pub extern "C" fn mvpn_pieces_finish(reader: Pieces) -> Pieces
    ensures { result ≡ finish_of reader }
{
    reader.finish()
}

// The class of a customer group.
#[unsafe(no_mangle)]
pub extern "C" fn mvpn_group_class(afi: u16, prefixes: &[u8], group: &[u8]) -> Group
    ensures { result ≡ group_of (class_by afi prefixes.now group.now) }
{
    Group::from(groups::group_class(afi, prefixes, group))
}

// Reads a PMSI Tunnel attribute.
#[unsafe(no_mangle)]
pub extern "C" fn mvpn_attribute_read(attribute: &[u8]) -> AttributeReading
    ensures { result ≡ attribute_answer (read_struct attribute.now) }
{
    match tunnel::read(attribute) {
        Ok(fields) => return AttributeReading::read(fields),
        Err(refusal) => return AttributeReading::refused(refusal.number()),
    }
}

// Writes a PMSI Tunnel attribute at the front of the output.
#[unsafe(no_mangle)]
pub extern "C" fn mvpn_attribute_write(
    flags: u8,
    tunnel_type: u8,
    label_field: u32,
    identifier: &[u8],
    output: &mut [u8],
) -> Written
    ensures { Wrote (write_outcome flags tunnel_type label_field identifier.now output.old) output.old result output.new }
{
    // field by field: the answer then leaves in registers
    let written = tunnel::write(flags, tunnel_type, label_field, identifier, output);
    Written {
        number: written.number,
        size: written.size,
    }
}

// Makes a table with no routes.
#[unsafe(no_mangle)]
pub extern "C" fn mvpn_make(afi: u16, table: &mut [u8]) -> u32
    ensures { Leaves (make_of afi table.old) result table.new }
{
    table::make(afi, table)
}

// Installs a route, or replaces the attribute of one.
#[unsafe(no_mangle)]
pub extern "C" fn mvpn_install(table: &mut [u8], nlri: &[u8], attribute: &[u8]) -> Installed
    ensures { Leaves (install_of table.old nlri.now attribute.now) result table.new }
{
    table::install(table, nlri, attribute)
}

// Withdraws a route.
#[unsafe(no_mangle)]
pub extern "C" fn mvpn_withdraw(table: &mut [u8], nlri: &[u8]) -> u32
    ensures { Leaves (withdraw_of table.old nlri.now) result table.new }
{
    table::withdraw(table, nlri)
}

// Marks a router's routes stale; those already marked go.
#[unsafe(no_mangle)]
pub extern "C" fn mvpn_mark(table: &mut [u8], router: &[u8]) -> Restarted
    ensures { Leaves (mark_of table.old router.now) result table.new }
{
    table::mark(table, router)
}

// Takes out what is still marked of a router's routes.
#[unsafe(no_mangle)]
pub extern "C" fn mvpn_sweep(table: &mut [u8], router: &[u8]) -> Restarted
    ensures { Leaves (sweep_of table.old router.now) result table.new }
{
    table::sweep(table, router)
}

// Writes a sound table of what is good in a damaged one, and lists each place dropped, with the reason.
#[unsafe(no_mangle)]
pub extern "C" fn mvpn_salvage(
    afi: u16,
    damaged: &[u8],
    table: &mut [u8],
    dropped: &mut [u8],
) -> Salvaged
    ensures { LeavesBoth (salvage_of afi damaged.now table.old dropped.old) result table.new dropped.new }
{
    salvage::salvage(afi, damaged, table, dropped)
}

// Finds the route of a router that a flow takes, and writes it at the front of the output.
#[unsafe(no_mangle)]
pub extern "C" fn mvpn_match(
    table: &[u8],
    prefixes: &[u8],
    router: &[u8],
    source: &[u8],
    group: &[u8],
    output: &mut [u8],
) -> Matched
    ensures { Leaves (match_of table.now (of_flow (flow_of prefixes.now router.now source.now group.now)) output.old) result output.new }
{
    matches::match_flow(table, prefixes, router, source, group, output)
}

// The same, and why each tier was taken or not.
#[unsafe(no_mangle)]
pub extern "C" fn mvpn_explain(
    table: &[u8],
    prefixes: &[u8],
    router: &[u8],
    source: &[u8],
    group: &[u8],
    output: &mut [u8],
) -> Explained
    ensures { Leaves (explain_of table.now (flow_of prefixes.now router.now source.now group.now) output.old) result output.new }
{
    matches::explain(table, prefixes, router, source, group, output)
}

// Finds the route that a shared tree takes.
#[unsafe(no_mangle)]
pub extern "C" fn mvpn_match_shared(
    table: &[u8],
    prefixes: &[u8],
    router: &[u8],
    group: &[u8],
    facts: TreeFacts,
    source_actives: &[u8],
    states: &[u8],
    output: &mut [u8],
) -> Matched
    ensures { Leaves (match_of table.now (of_shared_tree (tree_of prefixes.now router.now group.now facts source_actives.now states.now)) output.old) result output.new }
{
    matches::match_shared(
        table,
        prefixes,
        router,
        group,
        facts,
        source_actives,
        states,
        output,
    )
}

// Writes the bit string of a set for a BIER route, by Leaf routes, and tells how many egress routers are in it.
#[unsafe(no_mangle)]
pub extern "C" fn mvpn_bier_string(
    afi: u16,
    nlri: &[u8],
    attribute: &[u8],
    set: u8,
    leaves: &[u8],
    output: &mut [u8],
) -> Egress
    ensures { Leaves (egress_of afi nlri.now attribute.now set leaves.now output.old) result output.new }
{
    bier::bier_string(afi, nlri, attribute, set, leaves, output)
}

// Finds the route that comes next after an NLRI in the table's order, and writes it at the front of the output.
#[unsafe(no_mangle)]
pub extern "C" fn mvpn_next(table: &[u8], nlri: &[u8], output: &mut [u8]) -> Following
    ensures { Leaves (next_of table.now nlri.now output.old) result output.new }
{
    table::next(table, nlri, output)
}

// Tells a table's family, places and number of routes.
#[unsafe(no_mangle)]
pub extern "C" fn mvpn_table_info(table: &[u8]) -> TableFacts
    ensures { result ≡ info_of table.now }
{
    table::info(table)
}

// Whether routes proposed as table places have that originator and RD, repeat no NLRI, and give each flow its wanted attribute.
#[unsafe(no_mangle)]
pub extern "C" fn mvpn_judge(
    afi: u16,
    prefixes: &[u8],
    originator: &[u8],
    distinguisher: &[u8],
    flows: &[u8],
    places: &[u8],
) -> Judged
    ensures { result ≡ judge_of afi (vrf_of prefixes.now originator.now distinguisher.now) flows.now places.now }
{
    plan::judge(afi, prefixes, originator, distinguisher, flows, places)
}

// Proposes few routes for flows, as table places at the front of the output.
#[unsafe(no_mangle)]
pub extern "C" fn mvpn_plan(
    afi: u16,
    prefixes: &[u8],
    originator: &[u8],
    distinguisher: &[u8],
    flows: &[u8],
    output: &mut [u8],
) -> Planned
    ensures { Leaves (plan_of afi (vrf_of prefixes.now originator.now distinguisher.now) flows.now output.old) result output.new }
{
    plan::plan(afi, prefixes, originator, distinguisher, flows, output)
}
