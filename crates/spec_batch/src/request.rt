//! Requests.
ghost use Rattle.std.specs.Prelude.{◌≡◌};

use spec_json::lists::Texts;
use spec_json::text::Text;
use spec_json::tree::TreeObject;
use std::marker::Model;

/// A method call as it stands in a request (RFC 8620 section 3.2).
#[derive(Drop)]
pub struct Invocation {
    /// The name of the method.
    pub name: Text,
    /// Its arguments.
    pub arguments: TreeObject,
    /// The client's id of this call.
    pub call_id: Text,
}

/// The method calls of a request, in order.
#[derive(Drop)]
pub struct Invocations {
    items: Vec<Invocation>,
}

impl Model for Invocations {
    ghost use Rattle.std.specs.Prelude.{List};
    ghost use Rattle.std.specs.Coded.{codes};
    ghost use Rattle.spec_json.specs.DataCode.{data_code};
    ghost use Rattle.spec_batch.specs.declared.request.Invocation.{Invocation};

    ghost Value = { List Invocation };

    ghost coded = { Prim.hlevel (codes, data_code) };

    ghost view = { λ a. a.items.items };
}

impl Invocations {
    /// A list of these calls. Takes no memory.
    pub fn new(items: Vec<Invocation>) -> Invocations
        ensures { result ≡ items.items }
    {
        Invocations { items }
    }

    /// The calls, in order. Takes no memory.
    pub fn items(&self) -> &Vec<Invocation>
        ensures { result.now.items ≡ self.now }
    {
        &self.items
    }

    /// Gives the calls up, in order. Takes no memory.
    pub fn into_items(self) -> Vec<Invocation>
        ensures { result.items ≡ self }
    {
        self.items
    }
}

/// A request (RFC 8620 section 3.3).
#[derive(Drop)]
pub struct Request {
    /// The capabilities that it uses.
    pub using: Texts,
    /// Its method calls, in order.
    pub calls: Invocations,
    /// The member `createdIds`, where it has one: creation ids, each with the id of an object that was created before.
    pub created_ids: Option<TreeObject>,
}

/// A limit on requests (RFC 8620 section 2).
#[derive(Clone, Copy, Debug, PartialEq, Eq, Drop)]
pub enum Limit {
    /// `maxSizeRequest`: 10,000,000 bytes.
    SizeRequest,
    /// `maxCallsInRequest`: 16 calls.
    CallsInRequest,
}

/// Why a whole request was refused (RFC 8620 section 3.6.1). No call of it was made.
#[derive(Clone, Copy, Debug, PartialEq, Eq, Drop)]
pub enum RequestError {
    /// The bytes are not JSON.
    NotJson,
    /// The JSON is not a request, or has a number that isn't whole.
    NotRequest,
    /// The request uses a capability that the server doesn't have.
    UnknownCapability,
    /// The request passes a limit.
    Limit(Limit),
}

/// Why a request wasn't answered whole.
#[derive(Clone, Copy, Debug, PartialEq, Eq, Drop)]
pub enum BatchError {
    /// The whole request is refused. No call was made.
    Refused(RequestError),
    /// The desk made as many calls as it may.
    PassSpent,
    /// Out of memory.
    NoMemory,
}
