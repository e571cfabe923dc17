// The list of the requests that wait: the waiting line, for requests.
ghost use Rattle.std.specs.Prelude.{◌≡◌, Some, None, MatchResult};
ghost use Rattle.orders.specs.Told.{grid_of};
ghost use Rattle.requests.specs.Requests.{request_fault, Entered};

use crate::request::QuoteRequest;
use orders::refusal::Refusal;
use orders::settings::Settings;
use waiting_line::line::WaitingLine;

pub type RequestList<'a> = WaitingLine<'a, QuoteRequest>;

// What of a request can be checked without the list.
fn check(settings: Settings, request: QuoteRequest) -> Result<(), Refusal>
    ensures { MatchResult result (λ _. request_fault (grid_of settings) request ≡ None) (λ e. request_fault (grid_of settings) request ≡ Some e) }
{
    if request.participant == 0 {
        return Err(Refusal::Identity);
    }
    if request.quantity != 0 && !settings.is_on_lot(request.quantity) {
        return Err(Refusal::Quantity);
    }
    Ok(())
}

// A request joins the list.
pub fn enter(
    list: &mut RequestList<'_>,
    settings: Settings,
    request: QuoteRequest,
) -> Result<(), Refusal>
    ensures { Entered (request_fault (grid_of settings) request) list.old request result list.new }
{
    check(settings, request)?;
    list.put(request, Refusal::RequestListFull)
}
