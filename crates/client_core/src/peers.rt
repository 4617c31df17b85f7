//! With whom a client is.

ghost use Rattle.std.specs.Prelude.{◌≡◌};
ghost use Rattle.client_core.specs.Words.{after_grant};

use crate::generation::NotedGeneration;
use crate::servers::Servers;
use messages::Body;

/// With whom a client is: how many servers it drives, whether it has a mirror, and whether this granted
/// the generation of its note in this life.
#[derive(Drop)]
pub struct Peers {
    pub servers: Servers,
    pub mirror: bool,
    pub granted: bool,
}

impl Peers {
    /// What the mirror says to a client of this generation, which that may grant.
    pub fn hear(&mut self, generation: NotedGeneration, body: &Body)
        ensures { self.new ≡ after_grant generation body.now self.old }
    {
        if let Body::Granted {
            generation: granted,
        } = body
        {
            self.granted = granted.0 == generation.number() || self.granted;
        }
    }
}
