// Quote requests: the checks, and the sequence.
use orders::refusal::Refusal;
use orders::settings::Settings;
use orders::terms::Side;
use requests::list::enter;
use requests::request::QuoteRequest;
use std::test::Fail;
use waiting_line::line::WaitingLine;

fn request(participant: u16, quantity: u32) -> QuoteRequest {
    QuoteRequest {
        participant,
        side: None,
        quantity,
    }
}

#[test]
fn checks_in_order(rt: HostRuntime) -> Result<(), Fail> {
    let settings = Settings::new(10, 0)?;
    let mut slots = [request(1, 0); 2];
    let mut list = WaitingLine::new(&mut slots);
    assert_eq!(rt;
        enter(&mut list, settings, request(0, 5)),
        Err(Refusal::Identity)
    );
    for quantity in [1, 5, 15, 1_000_001, 1_000_010] {
        assert_eq!(rt;
            enter(&mut list, settings, request(7, quantity)),
            Err(Refusal::Quantity)
        );
    }
    assert_eq!(rt; enter(&mut list, settings, request(7, 0)), Ok(()));
    assert_eq!(rt; enter(&mut list, settings, request(8, 1_000_000)), Ok(()));
    assert_eq!(rt;
        enter(&mut list, settings, request(9, 5)),
        Err(Refusal::Quantity)
    );
    assert_eq!(rt;
        enter(&mut list, settings, request(9, 10)),
        Err(Refusal::RequestListFull)
    );
    assert_eq!(rt; list.len(), 2);
    Ok(())
}

#[test]
fn oldest_first(rt: HostRuntime) -> Result<(), Fail> {
    let settings = Settings::new(1, 0)?;
    let mut slots = [request(1, 0); 3];
    let mut list = WaitingLine::new(&mut slots);
    let sell = QuoteRequest {
        side: Some(Side::Sell),
        ..request(7, 30)
    };
    enter(&mut list, settings, sell)?;
    enter(&mut list, settings, request(8, 20))?;
    assert_eq!(rt; list.take(), Some(sell));
    assert_eq!(rt; list.take(), Some(request(8, 20)));
    assert_eq!(rt; list.take(), None);
    Ok(())
}
