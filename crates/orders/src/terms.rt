// The terms of an order.
ghost use Rattle.std.specs.Prelude.{◌≡◌};
ghost use Rattle.orders.specs.Codes.{IsSideOf, IsTypeOf};
ghost use Rattle.orders.specs.Forms.{type_of, limit_of, stop_of, same_form};

#[derive(Clone, Copy, PartialEq, Eq, Debug, Default)]
pub enum Side {
    #[default]
    Buy,
    Sell,
}

// A code that names no side, or no type of an order.
#[derive(Clone, Copy, PartialEq, Eq, Debug)]
pub struct UnknownCode(pub u8);

impl TryFrom<u8> for Side {
    type Error = UnknownCode;

    ghost try_from_gives = { IsSideOf };

    fn try_from(code: u8) -> Result<Side, UnknownCode> {
        match code {
            0 => Ok(Side::Buy),
            1 => Ok(Side::Sell),
            _ => Err(UnknownCode(code)),
        }
    }
}

// The kind of an order, with just the prices that this kind has.
#[derive(Clone, Copy, PartialEq, Eq, Debug, Default)]
pub enum Kind {
    #[default]
    Market,
    Limit { limit: u32 },
    StopMarket { stop: u32 },
    StopLimit { limit: u32, stop: u32 },
}

// The type of an order: its kind without the prices.
#[derive(Clone, Copy, PartialEq, Eq, Debug)]
pub enum OrderType {
    Market,
    Limit,
    StopMarket,
    StopLimit,
}

impl TryFrom<u8> for OrderType {
    type Error = UnknownCode;

    ghost try_from_gives = { IsTypeOf };

    fn try_from(code: u8) -> Result<OrderType, UnknownCode> {
        match code {
            0 => Ok(OrderType::Market),
            1 => Ok(OrderType::Limit),
            2 => Ok(OrderType::StopMarket),
            3 => Ok(OrderType::StopLimit),
            _ => Err(UnknownCode(code)),
        }
    }
}

impl Kind {
    pub fn order_type(self) -> OrderType
        ensures { result ≡ type_of self }
    {
        match self {
            Kind::Market => OrderType::Market,
            Kind::Limit { .. } => OrderType::Limit,
            Kind::StopMarket { .. } => OrderType::StopMarket,
            Kind::StopLimit { .. } => OrderType::StopLimit,
        }
    }

    // The limit, if the kind has one.
    pub fn limit(self) -> Option<u32>
        ensures { result ≡ limit_of self }
    {
        match self {
            Kind::Limit { limit } | Kind::StopLimit { limit, .. } => Some(limit),
            Kind::Market | Kind::StopMarket { .. } => None,
        }
    }

    // The stop limit, if the kind has one.
    pub fn stop(self) -> Option<u32>
        ensures { result ≡ stop_of self }
    {
        match self {
            Kind::StopMarket { stop } | Kind::StopLimit { stop, .. } => Some(stop),
            Kind::Market | Kind::Limit { .. } => None,
        }
    }
}

// What an order says; `quantity` is what is still open. The default fills the unused places of a fixed list.
#[derive(Clone, Copy, PartialEq, Eq, Debug, Default)]
pub struct Terms {
    pub number: u32,
    pub participant: u16,
    pub side: Side,
    pub kind: Kind,
    pub quantity: u32,
}

impl Terms {
    // Has it the side and the type of the other?
    pub fn has_form_of(self, other: Terms) -> bool
        ensures { result ≡ same_form self other }
    {
        self.side == other.side && self.kind.order_type() == other.kind.order_type()
    }
}
