//! The routes of the service, a file for each group of them: how a message's body is taken in, and what the message comes
//! to.
ghost use Rattle.std.specs.Prelude.{◌≡◌, IfOk};
ghost use Rattle.soc_edge.specs.Ahead.{outlook};
ghost use Rattle.soc_http.specs.Message.{Message};
ghost use Rattle.soc_session.specs.Plan.{Plans, found_at, lacks_page};
ghost use Rattle.soc_session.specs.inner.Intakes.{Awaits, AwaitsAt, FitsContent, IsFound, Says};
ghost use Rattle.soc_session.specs.inner.Plans.{Draws};

pub(crate) mod asks;
mod control;
mod crashes;
mod front;
mod health;
mod pages;
mod search;
pub(crate) mod submit;

use self::asks::Action;
use crate::forms::ReplyForm;
use crate::intake::{Content, Intake, passing};
use crate::lines::asker;
use crate::plans::Plan;
use crate::replies::Room;
use crate::rules::Rules;
use soc_base::NoMemory;
use soc_edge::{Clock, Draws};
use soc_http::{Head, Route, RouteError, Routes};
use soc_schema::Caller;
use std::alloc::Global;

/// How the body behind a head is taken in.
pub(crate) fn look_at_head(
    alloc: Global,
    rules: &Rules,
    routes: &Routes,
    head: &Head,
) -> Result<Intake, NoMemory>
    ensures { Awaits rules.now head.now result }
{
    let route = match find(alloc, rules, routes, head) {
        Ok(route) => route,
        Err(RouteError::NoRoute) => return passing(Plan::line(alloc, 404, "no route")),
        Err(RouteError::WrongVerb { allow }) => {
            return Ok(Intake::Passes(Plan::Says(Room::new(alloc)?.wrong_method(allow))));
        }
        Err(RouteError::NoMemory) => return Err(NoMemory),
    };
    let Some(caller) = asker(alloc, rules, &head.lines)? else {
        return passing(Plan::line(alloc, 403, "unknown token"));
    };
    look_at_route(alloc, rules, route, caller, head)
}

/// The route of a head. The path of the service's own page has one where there is a page.
fn find(alloc: Global, rules: &Rules, routes: &Routes, head: &Head) -> Result<Route, RouteError>
    ensures { IsFound (found_at rules.now head.now) result }
{
    if lacks_page(rules, head) {
        return Err(RouteError::NoRoute);
    }
    routes.find(alloc, head.verb, head.path.as_str())
}

/// Whether the path is that of the service's own page, and there is none.
fn lacks_page(rules: &Rules, head: &Head) -> bool
    ensures { result ≡ lacks_page rules.now head.now }
{
    head.path.as_str() == "/" && rules.page.is_none()
}

/// How the body behind a known caller's head is taken in at its route.
fn look_at_route(
    alloc: Global,
    rules: &Rules,
    route: Route,
    caller: Caller,
    head: &Head,
) -> Result<Intake, NoMemory>
    ensures { AwaitsAt rules.now route caller head.now result }
{
    match route {
        Route::Submit => submit::intake(alloc, head),
        Route::RawCrash => passing(crashes::annotations(alloc, head, caller)),
        Route::RawDump => passing(crashes::dump(alloc, head, caller)),
        Route::Stack => passing(crashes::stack(alloc, head, caller)),
        Route::ProcessedCrash => passing(crashes::report(alloc, head, caller)),
        Route::SuperSearch => passing(search::reports(alloc, head, caller, ReplyForm::Data)),
        Route::SuperSearchFields => passing(search::fields(alloc, &caller)),
        Route::Reprocessing => Ok(Intake::Collects {
            action: Action::Reprocess,
            caller,
        }),
        Route::PriorityJob => Ok(Intake::Collects {
            action: Action::Prioritise,
            caller,
        }),
        Route::Withdrawal => Ok(Intake::Collects {
            action: Action::Withdraw,
            caller,
        }),
        Route::Tops => passing(search::tops(alloc, head, caller, ReplyForm::Data)),
        Route::Turn => Ok(Intake::Passes(control::turn(caller))),
        Route::Drain => Ok(Intake::Passes(control::drain(caller))),
        Route::Stop => Ok(Intake::Passes(control::stop(caller))),
        Route::Counts => Ok(Intake::Passes(control::counts(caller))),
        Route::Heartbeat => Ok(Intake::Passes(health::heartbeat())),
        Route::Alive => passing(health::alive(alloc)),
        Route::Version => passing(health::version(alloc, rules)),
        Route::Front => passing(front::page(alloc, rules)),
        Route::Report(id) => passing(pages::report(alloc, id.as_str(), caller)),
        Route::Search => passing(search::reports(alloc, head, caller, ReplyForm::Page)),
        Route::TopsPage => passing(search::tops(alloc, head, caller, ReplyForm::Page)),
    }
}

/// What a message comes to. A submission takes its draws even where memory wants for its plan.
pub(crate) fn finish_plan<C: Clock, W: Draws>(
    alloc: Global,
    rules: &Rules,
    content: Content,
    clock: &mut C,
    draws: &mut W,
) -> Result<Plan, NoMemory>
    requires { FitsContent content }
    ensures { (message : Message) → Says rules.now message content → Draws (Plans rules.now message)
        (outlook (C.told clock.old) (W.told draws.old))
        (outlook (C.told clock.new) (W.told draws.new)) result }
{
    match content {
        Content::Decided(plan) => Ok(plan),
        Content::Submitted(said) => submit::plan(alloc, rules, said, clock, draws),
    }
}
