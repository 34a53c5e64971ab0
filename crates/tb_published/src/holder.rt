//! A publisher that closes when it is dropped.
ghost use Rattle.std.specs.Prelude.{◌≡◌};

use crate::naming::Naming;
use crate::publisher::Publisher;
use std::sync::Wait;

/// A publisher, and the handle by which its drop waits for the seats that are reading.
pub struct HeldPublisher<J: Naming, W: Wait + Drop> {
    /// The publisher.
    pub publisher: Publisher<J>,
    rt: W,
}

impl<J: Naming, W: Wait + Drop> HeldPublisher<J, W> {
    /// Holds a publisher.
    pub fn new(publisher: Publisher<J>, rt: W) -> HeldPublisher<J, W>
        ensures { result.publisher ≡ publisher }
    {
        HeldPublisher { publisher, rt }
    }

    /// Gives the publisher back, not closed.
    pub fn into_publisher(self) -> Publisher<J>
        ensures { result ≡ self.publisher }
    {
        let HeldPublisher { publisher, rt: _ } = self;
        publisher
    }
}

impl<J: Naming, W: Wait + Drop> Drop for HeldPublisher<J, W> {
    fn drop(self) {
        let HeldPublisher { publisher, rt } = self;
        publisher.close(&rt);
    }
}
