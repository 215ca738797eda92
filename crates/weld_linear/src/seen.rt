/// How names in scope are seen: as they are; from within a lambda; each as its own origin.
#[derive(Clone, Copy, Debug, PartialEq, Eq)]
pub enum Seen {
    Same,
    Outside,
    ByName,
}
