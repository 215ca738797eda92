//! Laws of this crate's definitions, each the contract of a function that does nothing.
ghost use Rattle.std.specs.Prelude.{◌≡◌, ◌<◌, ℕ, List, Some};
ghost use Rattle.std.specs.List.{AllByRecursion};
ghost use Rattle.weld_read_script.specs.declared.statements.statement.Argument.{Argument};
ghost use Rattle.weld_read_script.specs.Sound.{IsArgument};
ghost use Rattle.weld_read_script.specs.declared.requests.callee.Callee.{Callee};
ghost use Rattle.weld_read_script.specs.declared.requests.names.Bound.{Bound};
ghost use Rattle.weld_read_script.specs.declared.requests.names.Resolved.{Resolved};
ghost use Rattle.weld_read_script.specs.declared.requests.request.Request.{Request};
ghost use Rattle.weld_read_script.specs.Callees.{callee_of};
ghost use Rattle.weld_read_script.specs.Names.{objects_of, all_resolved};
ghost use Rattle.weld_read_script.specs.Requests.{request_of};
ghost use Rattle.weld_read_script.specs.RequestsSound.{IsResolved, IsRequest};

/// Where names are bound to objects that are made, arguments and shown names are such; and a call is asked for
/// on such, as many as it takes, with an operator that it may have.
pub fn requests_are_sound()
    ensures resolved { (n : ℕ) (bs : List Bound) (arguments : List Argument) (rs : List Resolved)
        → AllByRecursion (λ b. b.object < n) bs
        → AllByRecursion IsArgument arguments → all_resolved bs arguments ≡ Some rs
        → AllByRecursion (IsResolved n) rs }
    ensures shown { (n : ℕ) (bs : List Bound) (names : List (List ℕ)) (ids : List ℕ)
        → AllByRecursion (λ b. b.object < n) bs
        → objects_of bs names ≡ Some ids → AllByRecursion (λ id. id < n) ids }
    ensures requests { (n : ℕ) (library call : List ℕ) (callee : Callee) (rs : List Resolved)
        (r : Request)
        → callee_of library call ≡ Some callee → AllByRecursion (IsResolved n) rs
        → request_of callee rs ≡ Some r → IsRequest n r }
{}
