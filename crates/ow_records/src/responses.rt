// What an activation answers.
ghost use Rattle.std.specs.Prelude.{◌≡◌, ◌≤◌, ◌↔◌, IsTrue, IfOk};

use ow_value::{NoMemory, Params, PlainData};
use std::alloc::Global;
use std::marker::Model;

/// What an activation answers: a code and an object. The codes are those of Apache OpenWhisk:
/// 0 is success, 1 an application error, 2 an error of the action's developer, 3 an error inside the service.
#[derive(Drop)]
pub struct Response {
    code: u8,
    result: Params,
}

impl Model for Response {
    ghost use Rattle.std.specs.Prelude.{◌≤◌};
    ghost use Rattle.ow_records.specs.Response.{ResponseView, response_code};

    ghost Value = { ResponseView };

    ghost coded = { response_code };

    ghost view = { λ a. record { code = a.code; result = a.result } };

    ghost invariant = { λ a. a.code ≤ 3 };
}

impl Response {
    /// The code is 0 to 3, and the object the result.
    pub fn new(code: u8, object: Params) -> Response
        requires { code ≤ 3 }
        ensures { result ≡ record { code = code; result = object } }
    {
        Response {
            code,
            result: object,
        }
    }

    /// 0 to 3.
    pub fn code(&self) -> u8
        ensures value { result ≡ self.now.code }
        ensures range { result ≤ 3 }
    {
        self.code
    }

    /// The object of the answer.
    pub fn result(&self) -> &Params
        ensures { result.now ≡ self.now.result }
    {
        &self.result
    }
}

impl PlainData for Response {
    fn same(&self, other: &Response) -> bool {
        self.code == other.code && self.result.same(&other.result)
    }

    fn copy(&self, alloc: Global) -> Result<Response, NoMemory> {
        Ok(Response {
            code: self.code,
            result: self.result.copy(alloc)?,
        })
    }
}
