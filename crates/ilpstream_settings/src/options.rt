//! The texts of options, as the command line gives them.

/// The texts of the options of `local`.
#[derive(Clone, Copy)]
pub struct LocalOptions<'a> {
    /// The text of `--hops`.
    pub hops: &'a str,
    /// The text of `--lose`.
    pub lose: &'a str,
    /// The text of `--streams`.
    pub streams: &'a str,
    /// The text of `--totals`, if it is given.
    pub totals: Option<&'a str>,
}

/// The texts of the options of `send`.
#[derive(Clone, Copy)]
pub struct SendOptions<'a> {
    /// The text of `--to`.
    pub to: &'a str,
    /// The text of `--token`, if it is given.
    pub token: Option<&'a str>,
    /// The text of `--token-file`, if it is given.
    pub token_file: Option<&'a str>,
    /// The text of `--secret`, if it is given.
    pub secret: Option<&'a str>,
    /// The text of `--secret-file`, if it is given.
    pub secret_file: Option<&'a str>,
    /// The text of `--address`.
    pub address: &'a str,
    /// The text of `--peer`.
    pub peer: &'a str,
    /// The text of `--money`.
    pub money: &'a str,
    /// The text of `--workers`.
    pub workers: &'a str,
    /// The text of `--patience`.
    pub patience: &'a str,
    /// The text of `--random`.
    pub random: &'a str,
    /// The text of `--least`.
    pub least: &'a str,
    /// The text of `--totals`, if it is given.
    pub totals: Option<&'a str>,
    /// The text of `--log`, if it is given.
    pub log: Option<&'a str>,
}

/// The texts of the options of `receive`.
#[derive(Clone, Copy)]
pub struct ReceiveOptions<'a> {
    /// The text of `--listen`.
    pub listen: &'a str,
    /// The text of `--token`, if it is given.
    pub token: Option<&'a str>,
    /// The text of `--token-file`, if it is given.
    pub token_file: Option<&'a str>,
    /// The text of `--secret`, if it is given.
    pub secret: Option<&'a str>,
    /// The text of `--secret-file`, if it is given.
    pub secret_file: Option<&'a str>,
    /// The text of `--address`.
    pub address: &'a str,
    /// The text of `--peer`.
    pub peer: &'a str,
    /// The text of `--receive-max`.
    pub receive_max: &'a str,
    /// The text of `--workers`.
    pub workers: &'a str,
    /// The text of `--patience`, if it is given.
    pub patience: Option<&'a str>,
    /// The text of `--totals`, if it is given.
    pub totals: Option<&'a str>,
    /// The text of `--log`, if it is given.
    pub log: Option<&'a str>,
    /// Whether `--verbose` is given.
    pub verbose: bool,
    /// The text of `--control`, if it is given.
    pub control: Option<&'a str>,
}

/// The texts of the options of `connector`.
#[derive(Clone, Copy)]
pub struct ConnectorOptions<'a> {
    /// The text of `--listen`.
    pub listen: &'a str,
    /// The text of `--own`.
    pub own: &'a str,
    /// The text of `--requests`, if it is given.
    pub requests: Option<&'a str>,
    /// The text of `--workers`.
    pub workers: &'a str,
    /// The text of `--totals`, if it is given.
    pub totals: Option<&'a str>,
    /// The text of `--log`, if it is given.
    pub log: Option<&'a str>,
    /// The text of `--ledger`, if it is given.
    pub ledger: Option<&'a str>,
    /// Whether `--keep-fulfillments` is given.
    pub keep_fulfillments: bool,
    /// Whether `--verbose` is given.
    pub verbose: bool,
    /// The text of `--control`, if it is given.
    pub control: Option<&'a str>,
    /// The text of `--table`, if it is given.
    pub table: Option<&'a str>,
}

/// The texts of the arguments of `ledger`.
#[derive(Clone, Copy)]
pub struct LedgerOptions<'w, 'a> {
    /// The text of FILE.
    pub file: &'a str,
    /// The arguments of a payment, if there are any.
    pub payment: Option<&'w [&'a str]>,
}
