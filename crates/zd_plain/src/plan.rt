//! What callers ask for, in order.

ghost use Rattle.std.specs.Prelude.{◌≡◌, ◌<◌, ◌↔◌, ◌++◌, ◌∷◌, [], length, slice_get, Some, OnOk, OnErr, IsTrue};

use std::alloc::Global;
use std::convert::From;
use std::marker::Model;
use zd_base::Memory;
use zd_model::Request;

/// Requests, in the order of the script. Contracts see the list.
#[derive(Drop)]
pub struct Plan {
    requests: Vec<Request>,
}

impl Model for Plan {
    ghost use Rattle.std.specs.Prelude.{List};
    ghost use Rattle.zd_model.specs.declared.requests.Request.{Request};

    ghost Value = { List Request };

    ghost view = { λ p. p.requests.items };
}

impl Plan {
    /// No requests. It takes no memory.
    pub fn new(alloc: Global) -> Self
        ensures { result ≡ [] }
    {
        Plan {
            requests: Vec::new(alloc),
        }
    }

    /// Appends a request. A refusal changes nothing.
    pub fn push(&mut self, item: Request) -> Result<(), Memory>
        ensures ok { OnOk result (self.new ≡ self.old ++ item ∷ []) }
        ensures err { OnErr result (self.new ≡ self.old) }
    {
        self.requests.push(item).map_err(|_| Memory)
    }

    /// How many requests.
    pub fn len(&self) -> usize
        ensures { result ≡ length self.now }
    {
        self.requests.len()
    }

    /// Whether there are none.
    pub fn is_empty(&self) -> bool
        ensures { IsTrue result ↔ (self.now ≡ []) }
    {
        self.requests.is_empty()
    }

    /// Request i, counted from 0.
    pub fn get(&self, i: usize) -> &Request
        requires { i < length self.now }
        ensures { slice_get self.now i ≡ Some result.now }
    {
        &self.requests[i]
    }
}

impl From<Vec<Request>> for Plan {
    ghost from_gives = { λ requests plan. plan ≡ requests.items };

    /// The same requests. It takes no memory.
    fn from(requests: Vec<Request>) -> Plan {
        Plan { requests }
    }
}

impl From<Plan> for Vec<Request> {
    ghost from_gives = { λ plan requests. requests.items ≡ plan };

    /// The same requests. It takes no memory.
    fn from(plan: Plan) -> Vec<Request> {
        plan.requests
    }
}
