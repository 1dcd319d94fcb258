//! Copies are made while there is memory. Clauses state their content.

use rs_fixity::Digests;
use rs_record::{Base, Duplicate, Facts, MediaType, Name};
use std::alloc::Global;

fn base_once_more(alloc: Global) -> Option<Base> {
    Base::new(alloc, b"http://a").ok()?.copy(alloc).ok()
}

fn some_facts(alloc: Global) -> Option<Facts> {
    Some(Facts {
        kind: MediaType::new(alloc, b"text/plain").ok()?,
        length: 5,
        digests: Digests {
            md5: [1; 16],
            sha256: [2; 32],
        },
    })
}

fn pair_once_more(alloc: Global) -> Option<(Name, Facts)> {
    let pair = (Name::new(alloc, b"a").ok()?, some_facts(alloc)?);
    pair.duplicate(alloc).ok()
}

#[test]
fn a_base_and_a_pair_are_copied(rt: HostRuntime) {
    assert!(rt; base_once_more(rt.alloc()).is_some());
    assert!(rt; pair_once_more(rt.alloc()).is_some());
}
