ghost use Rattle.std.specs.Prelude.{◌≡◌};
ghost use Rattle.cl_rpc.specs.Messages.{method_named};

/// The methods that are known.
#[derive(Clone, Copy)]
pub enum Method {
    Initialize,
    Shutdown,
    Exit,
    DidOpen,
    DidChange,
    DidClose,
    Cancel,
    Watched,
    Symbols,
    Other,
}

/// The method of a name.
pub fn method_of(name: &str) -> Method
    ensures { result ≡ method_named name.now }
{
    if name == "initialize" {
        Method::Initialize
    } else if name == "shutdown" {
        Method::Shutdown
    } else if name == "exit" {
        Method::Exit
    } else if name == "textDocument/didOpen" {
        Method::DidOpen
    } else if name == "textDocument/didChange" {
        Method::DidChange
    } else if name == "textDocument/didClose" {
        Method::DidClose
    } else if name == "$/cancelRequest" {
        Method::Cancel
    } else if name == "workspace/didChangeWatchedFiles" {
        Method::Watched
    } else if name == "textDocument/documentSymbol" {
        Method::Symbols
    } else {
        Method::Other
    }
}
