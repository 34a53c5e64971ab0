//! Requests that go together.
ghost use Rattle.std.specs.Prelude.{◌≤◌, length};

use tb_records::Request;

/// At most eight requests, which are entered in turn and shown together.
#[derive(Drop)]
pub struct Batch {
    pub requests: Vec<Request>,
    pub ghost few: { length requests.items ≤ 8 },
}
