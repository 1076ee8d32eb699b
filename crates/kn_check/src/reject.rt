//! Why rows are no proof.
ghost use Rattle.std.specs.Prelude.{◌≡◌};

/// Why rows are no proof of a level: the first item that fails. The rows of the proof are tried first, in order and
/// each for the reasons in this order, then the rows of the system in order, and the claim last. Rows are counted
/// from 0.
#[derive(Clone, Copy, PartialEq, Eq)]
pub enum Reject {
    /// Row `row` names a principal, a row of the system or a level that the system doesn't have.
    Range { row: u32 },
    /// The principal of row `row` is a requester.
    Requester { row: u32 },
    /// The principal of row `row` has a level from an earlier row.
    Again { row: u32 },
    /// Row `row` gives the lowest level.
    Zero { row: u32 },
    /// Row `row` stands on a row of the system whose authorizer is another principal.
    Foreign { row: u32 },
    /// Row `row` stands on a row of the system that is worth only `found` there.
    Unsupported { row: u32, found: u8 },
    /// Row `assertion` of the system is worth `found`, which is more than its authorizer has after all rows.
    Unclosed { assertion: u32, found: u8 },
    /// The policy has the level `found` after all rows, and not the claimed one.
    Claim { found: u8 },
}

impl Reject {
    ghost use Rattle.kn_check.specs.Rejects.{reason_number, reason_row, reason_found};

    /// The number of the reason, from 1 to 8 in the order of the variants.
    pub fn number(&self) -> u8
        ensures { result ≡ reason_number self.now }
    {
        match self {
            Reject::Range { .. } => 1,
            Reject::Requester { .. } => 2,
            Reject::Again { .. } => 3,
            Reject::Zero { .. } => 4,
            Reject::Foreign { .. } => 5,
            Reject::Unsupported { .. } => 6,
            Reject::Unclosed { .. } => 7,
            Reject::Claim { .. } => 8,
        }
    }

    /// The number of the row of the proof, for `Unclosed` that of the row of the system, and 0 for `Claim`.
    pub fn row(&self) -> u32
        ensures { result ≡ reason_row self.now }
    {
        match *self {
            Reject::Range { row }
            | Reject::Requester { row }
            | Reject::Again { row }
            | Reject::Zero { row }
            | Reject::Foreign { row }
            | Reject::Unsupported { row, .. } => row,
            Reject::Unclosed { assertion, .. } => assertion,
            Reject::Claim { .. } => 0,
        }
    }

    /// The level that was found, and 0 for a reason that has none.
    pub fn found(&self) -> u8
        ensures { result ≡ reason_found self.now }
    {
        match *self {
            Reject::Unsupported { found, .. }
            | Reject::Unclosed { found, .. }
            | Reject::Claim { found } => found,
            _ => 0,
        }
    }
}
