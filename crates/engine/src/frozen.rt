// The freeze: what members send waits in the locked stock, until a match or a lift ends it.
use orders::settings::Settings;

// The phase, and the token of an open freeze: it cannot be let go, and only a match or a lift spends it.
pub struct Frozen {
    pub(crate) settings: Settings,
}
