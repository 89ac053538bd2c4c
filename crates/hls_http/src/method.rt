//! Methods of requests.

ghost use Rattle.std.specs.Prelude.{◌≡◌};
ghost use Rattle.hls_http.specs.Methods.{method_of};

/// The method of a request, case-sensitive (RFC 9110 9.1).
#[derive(Clone, Copy, Debug, PartialEq, Eq, Drop)]
pub enum Method {
    Get,
    Head,
    Post,
    Put,
    Delete,
    /// Any other method.
    Other,
}

impl Method {
    /// Returns the method of this name.
    pub fn from_name(name: &[u8]) -> Method
        ensures { result ≡ method_of name.now }
    {
        if name == b"GET".as_slice() {
            Method::Get
        } else if name == b"HEAD".as_slice() {
            Method::Head
        } else if name == b"POST".as_slice() {
            Method::Post
        } else if name == b"PUT".as_slice() {
            Method::Put
        } else if name == b"DELETE".as_slice() {
            Method::Delete
        } else {
            Method::Other
        }
    }
}
