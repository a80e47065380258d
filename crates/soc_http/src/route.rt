//! Routes.
ghost use Rattle.std.specs.Prelude.{◌≡◌, IfOk, MatchOption, None, OnOk, Some, true, []};
ghost use Rattle.matchit.specs.Order.{placed};
ghost use Rattle.soc_http.specs.Route.{IsRouteOf, literals as table, literal_target, report_id, is_verb};
ghost use Rattle.soc_http.specs.inner.Routers.{is_literal, row_of, rows_of};

use crate::verb::Verb;
use matchit::Router;
use soc_base::{NoMemory, Text};
use std::alloc::Global;
use std::marker::Model;
use thiserror::Error;

/// What a message asks for.
#[derive(Debug, Drop)]
pub enum Route {
    Submit,
    RawCrash,
    RawDump,
    ProcessedCrash,
    SuperSearch,
    SuperSearchFields,
    Reprocessing,
    PriorityJob,
    Withdrawal,
    Tops,
    Turn,
    Drain,
    Stop,
    /// The stack of a crash.
    Stack,
    /// What the log has, counted.
    Counts,
    /// Whether the service answers, by a turn of its desk.
    Heartbeat,
    /// Whether the service answers, without its desk.
    Alive,
    /// Which program answers.
    Version,
    /// The service's own page.
    Front,
    /// The page of one report, with the id parameter as the path has it.
    Report(Text),
    /// The page of a search.
    Search,
    /// The page of top crashers.
    TopsPage,
}

/// Why a message has no route.
#[derive(Clone, Copy, Debug, PartialEq, Eq, Error)]
pub enum RouteError {
    /// No route has the path.
    #[error("no route")]
    NoRoute,
    /// The path takes another method.
    #[error("wrong method")]
    WrongVerb { allow: Verb },
    #[error("no memory")]
    NoMemory,
}

impl From<NoMemory> for RouteError {
    ghost use Rattle.std.specs.Prelude.{◌≡◌};
    ghost use Rattle.soc_http.specs.declared.route.RouteError.TheVariants.{NoMemory as no_memory};

    ghost from_gives = { λ _ error. error ≡ no_memory };

    fn from(_error: NoMemory) -> RouteError {
        RouteError::NoMemory
    }
}

/// What a path is taken with, and where it leads.
#[derive(Drop)]
struct Target {
    verb: Verb,
    route: Route,
}

/// The routes of the service. Contracts don't see inside: each has the table of literal paths.
#[derive(Drop)]
pub struct Routes {
    literals: Router<Target>,
}

impl Model for Routes {
    ghost use Rattle.std.specs.Prelude.{◌≡◌};
    ghost use Rattle.soc_http.specs.Route.{literals as table};
    ghost use Rattle.soc_http.specs.inner.Routers.{rows_of};

    ghost Value = { Unit {0} };

    ghost view = { λ _. tt };

    ghost invariant = { λ routes. routes.literals ≡ rows_of table };
}

const REPORT_FRONT: &str = "/report/index/";

/// One more literal path.
fn add(literals: &mut Router<Target>, path: &str, verb: Verb, route: Route) -> Result<(), NoMemory>
    requires { is_literal path.now ≡ true }
    ensures { OnOk result (literals.new
        ≡ placed (row_of (path.now, record { verb = verb; route = route })) literals.old) }
{
    let Ok(()) = literals.insert(path, Target { verb, route }) else {
        return Err(NoMemory);
    };
    Ok(())
}

/// Puts the literal paths into an empty router.
fn fill(literals: &mut Router<Target>) -> Result<(), NoMemory>
    requires { literals.old ≡ [] }
    ensures { OnOk result (literals.new ≡ rows_of table) }
{
    add(literals, "/", Verb::Get, Route::Front)?;
    add(literals, "/topcrashers/", Verb::Get, Route::TopsPage)?;
    add(literals, "/submit", Verb::Post, Route::Submit)?;
    add(literals, "/search/", Verb::Get, Route::Search)?;
    add(literals, "/control/turn", Verb::Post, Route::Turn)?;
    add(literals, "/control/stop", Verb::Post, Route::Stop)?;
    add(literals, "/control/drain", Verb::Post, Route::Drain)?;
    add(literals, "/control/counts", Verb::Get, Route::Counts)?;
    add(literals, "/api/Withdrawal/", Verb::Post, Route::Withdrawal)?;
    add(literals, "/api/TopCrashers/", Verb::Get, Route::Tops)?;
    add(
        literals,
        "/api/SuperSearchFields/",
        Verb::Get,
        Route::SuperSearchFields,
    )?;
    add(literals, "/api/SuperSearch/", Verb::Get, Route::SuperSearch)?;
    add(literals, "/api/Stack/", Verb::Get, Route::Stack)?;
    add(
        literals,
        "/api/Reprocessing/",
        Verb::Post,
        Route::Reprocessing,
    )?;
    add(literals, "/api/RawDump/", Verb::Get, Route::RawDump)?;
    add(literals, "/api/RawCrash/", Verb::Get, Route::RawCrash)?;
    add(
        literals,
        "/api/ProcessedCrash/",
        Verb::Get,
        Route::ProcessedCrash,
    )?;
    add(
        literals,
        "/api/PriorityJob/",
        Verb::Post,
        Route::PriorityJob,
    )?;
    add(literals, "/__version__", Verb::Get, Route::Version)?;
    add(literals, "/__lbheartbeat__", Verb::Get, Route::Alive)?;
    add(literals, "/__heartbeat__", Verb::Get, Route::Heartbeat)
}

/// A copy of a route.
fn copy_of(alloc: Global, route: &Route) -> Result<Route, NoMemory>
    ensures { IfOk result (λ copy. copy ≡ route.now) }
{
    let copy = match route {
        Route::Submit => Route::Submit,
        Route::RawCrash => Route::RawCrash,
        Route::RawDump => Route::RawDump,
        Route::ProcessedCrash => Route::ProcessedCrash,
        Route::SuperSearch => Route::SuperSearch,
        Route::SuperSearchFields => Route::SuperSearchFields,
        Route::Reprocessing => Route::Reprocessing,
        Route::PriorityJob => Route::PriorityJob,
        Route::Withdrawal => Route::Withdrawal,
        Route::Tops => Route::Tops,
        Route::Turn => Route::Turn,
        Route::Drain => Route::Drain,
        Route::Stop => Route::Stop,
        Route::Stack => Route::Stack,
        Route::Counts => Route::Counts,
        Route::Heartbeat => Route::Heartbeat,
        Route::Alive => Route::Alive,
        Route::Version => Route::Version,
        Route::Front => Route::Front,
        Route::Report(id) => Route::Report(Text::of(alloc, id.as_str())?),
        Route::Search => Route::Search,
        Route::TopsPage => Route::TopsPage,
    };
    Ok(copy)
}

/// The id parameter of a report's path.
fn report_id(path: &str) -> Option<&str>
    ensures { MatchOption result (report_id path.now ≡ None)
        (λ id. report_id path.now ≡ Some id.now) }
{
    let id = path.strip_prefix(REPORT_FRONT)?;
    if id.is_empty() || id.as_bytes().contains(&b'/') {
        return None;
    }
    Some(id)
}

fn is_verb(verb: Verb, allow: Verb) -> bool
    ensures { result ≡ is_verb verb allow }
{
    verb == allow
}

impl Routes {
    /// The routes.
    pub fn new(alloc: Global) -> Result<Routes, NoMemory> {
        let mut literals = Router::new(alloc);
        fill(&mut literals)?;
        Ok(Routes { literals })
    }

    /// Where a literal path leads.
    fn literal_target(&self, path: &str) -> Option<&Target>
        ensures { MatchOption result (literal_target path.now ≡ None)
            (λ target. literal_target path.now ≡ Some target.now) }
    {
        match self.literals.at(path) {
            Ok(found) => Some(found.value),
            Err(_) => None,
        }
    }

    /// The route of a path with this method. Paths are not decoded.
    pub fn find(&self, alloc: Global, verb: Verb, path: &str) -> Result<Route, RouteError>
        ensures { IsRouteOf verb path.now result }
    {
        if let Some(id) = report_id(path) {
            if !is_verb(verb, Verb::Get) {
                return Err(RouteError::WrongVerb { allow: Verb::Get });
            }
            return Ok(Route::Report(Text::of(alloc, id)?));
        }
        let Some(target) = self.literal_target(path) else {
            return Err(RouteError::NoRoute);
        };
        if is_verb(verb, target.verb) {
            Ok(copy_of(alloc, &target.route)?)
        } else {
            Err(RouteError::WrongVerb { allow: target.verb })
        }
    }
}
