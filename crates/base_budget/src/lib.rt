// MemoryBudget of common.rs: what a call may still charge. The Rust's listing and host reading are left out, and so is
// `halved`, which only listing uses. A budget is a value: to shrink it is to make another.
#![tactic(auto)]

ghost use Rattle.std.specs.Prelude.{◌≡◌};
ghost use Rattle.base_budget.specs.Budget.{covers, shrunk};

#[derive(Clone, Copy, Debug, PartialEq, Eq)]
pub struct MemoryBudget {
    pub available: u64,
    pub limit: u64,
}

// More was to be charged than is available under `limit`.
#[derive(Clone, Copy, Debug, PartialEq, Eq)]
pub struct MemoryUsageLimitExceeded {
    pub limit: u64,
}

impl MemoryBudget {
    // The budget where nothing is charged yet.
    pub fn full(limit: u64) -> MemoryBudget
        ensures { result ≡ record { available = limit; limit = limit } }
    {
        MemoryBudget {
            available: limit,
            limit,
        }
    }

    // Whether `bytes` can still be charged.
    pub fn check(self, bytes: u64) -> bool
        ensures { result ≡ covers self bytes }
    {
        bytes <= self.available
    }

    // The budget that is left.
    pub fn shrink(self, bytes: u64) -> Result<MemoryBudget, MemoryUsageLimitExceeded>
        ensures { result ≡ shrunk self bytes }
    {
        let limit = self.limit;
        let available = self
            .available
            .checked_sub(bytes)
            .ok_or(MemoryUsageLimitExceeded { limit })?;
        Ok(MemoryBudget { available, limit })
    }
}

// What the table's charge leaves of a limit: `available_memory` of overlay.rs.
pub fn available_memory(charge: u64, limit: u64) -> Result<MemoryBudget, MemoryUsageLimitExceeded>
    ensures { result ≡ shrunk (record { available = limit; limit = limit }) charge }
{
    MemoryBudget::full(limit).shrink(charge)
}
