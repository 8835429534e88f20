// The public call allocate: a request is judged, a place is searched for, and it is granted if the rows suffice.
#![tactic(auto)]

ghost use Rattle.std.specs.Prelude.{◌≡◌};
ghost use Rattle.promises.specs.Prelude.{Allocates};
ghost use Rattle.rows.specs.State.{state};
ghost use Rattle.rules.specs.Prelude.{Passes};
ghost use Rattle.plan.specs.Plan.{plan_at};
ghost use Rattle.grant.specs.Grant.{PlanThere, grant_at};
ghost use Rattle.allocate.specs.Placing.{GrantsThere, GrantsAsked};

use grant::grant_at;
use numbers::refusal::Refusal;
use numbers::request;
use numbers::request::Asked;
use plan::Plan;
use promises::answers::Answered;
use rows::header::Header;
use rows::live::Live;
use rows::tables::Tables;
use search::Place;

// The grant is written as planned in the tables that were lent.
fn write_grant(h: Header, shelves: &mut [u16], items: &mut [u16], p: Plan) -> Header
    requires { PlanThere shelves.old items.old p }
    ensures { state result shelves.new items.new ≡ grant_at (state h shelves.old items.old) p }
{
    let mut t = Tables {
        header: h,
        shelves,
        items,
    };
    grant_at(&mut t, p);
    t.header
}

// Answer 7, or the grant at this place. It is planned first, and written where the rows suffice.
fn grant_there(
    h: Header,
    shelves: &mut [u16],
    items: &mut [u16],
    p: Place,
    asked: Asked,
) -> Answered<Live>
    requires { PlanThere shelves.old items.old (plan_at h shelves.old items.old p asked) }
    ensures { GrantsThere h shelves.old items.old asked result shelves.new items.new p }
{
    let plan = plan::plan_at(h, shelves, items, p, asked);
    if !plan::has_rows(h, shelves, items, plan) {
        return Answered::refused(Refusal::TooFewRows, h);
    }
    let live = plan.live;
    let header = write_grant(h, shelves, items, plan);
    Answered {
        answer: Ok(live),
        header,
    }
}

// Answer 6, or what the place that the search finds gives.
fn grant_asked(h: Header, shelves: &mut [u16], items: &mut [u16], asked: Asked) -> Answered<Live>
    requires { Passes h shelves.old items.old }
    ensures { GrantsAsked h shelves.old items.old asked result shelves.new items.new }
{
    let Some(place) = search::search(h, shelves, items, asked) else {
        return Answered::refused(Refusal::NoPlace, h);
    };
    grant_there(h, shelves, items, place, asked)
}

// The call without the audit, for a caller that has made one: it owes that the tables pass.
pub fn allocate_unaudited(
    h: Header,
    shelves: &mut [u16],
    items: &mut [u16],
    w: i32,
    height: i32,
) -> Answered<Live>
    requires { Passes h shelves.old items.old }
    ensures { Allocates h shelves.old items.old w height result shelves.new items.new }
{
    let request = request::check_request(h.limits, w, height);
    match request {
        Ok(asked) => grant_asked(h, shelves, items, asked),
        Err(refusal) => Answered::refused(refusal, h),
    }
}

pub fn allocate(
    h: Header,
    shelves: &mut [u16],
    items: &mut [u16],
    w: i32,
    height: i32,
) -> Answered<Live>
    ensures { Allocates h shelves.old items.old w height result shelves.new items.new }
{
    if !audit::passes(h, shelves, items) {
        return Answered::refused(Refusal::Audit, h);
    }
    allocate_unaudited(h, shelves, items, w, height)
}
