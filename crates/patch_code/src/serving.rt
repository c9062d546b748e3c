// Stubs: their order, their words and their places.
ghost use Rattle.std.specs.Prelude.{◌≡◌, ℕ, ◌+◌, ◌*◌, ◌<◌, ◌≤◌, All, map, length, IfOk};
ghost use Rattle.std.specs.List.Sorted.{IsStrictlyIncreasing};
ghost use Rattle.rv32im.specs.Sequences;
ghost use Rattle.rv32im.specs.Sequences.{MeanAll};
ghost use Rattle.patch_code.specs.{Homes.{HaveHomes, AreOrdered}, Serving.{ServingStub, serving_home, test_code, test_bytes, body_bytes, serving_size, serving_bytes, served_before, places_from, IsBody, AreStubWords, AreServed}, Overlay.{CanServeAt, CanServeFrom, Reaches}, StubPlans.{body_of, serving_stub, serving_stubs}};

use crate::checking::checking_stub;
use crate::stub_plan::{Body, Stub};
use rv32im::{encode_all, jump_absolute};
use std::alloc::{AllocError, Global};

// The stubs, to be put into another order.
fn listed<'a>(alloc: Global, stubs: &'a [Stub]) -> Result<Vec<&'a Stub>, AllocError>
    ensures { IfOk result (λ all. serving_stubs all.items ≡ map serving_stub stubs.now) }
{
    let mut all = Vec::new(alloc);
    for stub in stubs {
        all.push(stub)?;
    }
    Ok(all)
}

/// The stubs by home address.
pub(crate) fn by_home<'a>(alloc: Global, stubs: &'a [Stub]) -> Result<Vec<&'a Stub>, AllocError>
    requires { HaveHomes serving_home (map serving_stub stubs.now) }
    ensures { IfOk result (λ ordered. AreOrdered ServingStub serving_home (map serving_stub stubs.now) (serving_stubs ordered.items)) }
{
    let mut ordered = listed(alloc, stubs)?;
    ordered.sort_unstable_by_key(|stub| stub.home);
    Ok(ordered)
}

// The bytes of what stands before the body of a stub of this region.
fn test_size(region: u32) -> u32
    ensures { result ≡ test_bytes region }
{
    if region == 0 { 0 } else { 88 }
}

// The bytes of a body.
fn body_size(body: &Body) -> u32
    requires { body_bytes (body_of body.now) < 4294967296 }
    ensures { result ≡ body_bytes (body_of body.now) }
{
    match body {
        Body::Jump { .. } => 8,
        Body::Words(words) => 4 * (words.len() as u32),
    }
}

/// The bytes of a stub.
pub(crate) fn stub_size(stub: &Stub) -> u32
    requires { serving_size (serving_stub stub.now) < 4294967296 }
    ensures { result ≡ serving_size (serving_stub stub.now) }
{
    test_size(stub.region) + body_size(&stub.body)
}

/// The bytes of all stubs.
pub(crate) fn stub_bytes(stubs: &[Stub]) -> u32
    requires { serving_bytes (map serving_stub stubs.now) < 4294967296 }
    ensures { result ≡ serving_bytes (map serving_stub stubs.now) }
{
    let mut bytes = 0;
    for stub in stubs {
        bytes += stub_size(stub);
    }
    bytes
}

// The words of a stub's body.
fn body_words(alloc: Global, stub: &Stub) -> Result<Vec<u32>, AllocError>
    requires { stub.now.temp ≤ 31 }
    ensures { IfOk result (λ words. IsBody stub.now.temp (body_of stub.now.body) words.items) }
{
    match &stub.body {
        Body::Jump { to } => jump_words(alloc, stub.temp, *to),
        Body::Words(words) => words.to_vec(alloc),
    }
}

// The words of a jump to any address.
fn jump_words(alloc: Global, temp: u8, to: u32) -> Result<Vec<u32>, AllocError>
    requires { temp ≤ 31 }
    ensures { IfOk result (λ words. MeanAll words.items (Sequences.jump_absolute temp to)) }
{
    encode_all(alloc, &jump_absolute(temp, to))
}

// The words before the body of a stub at an address, for control words at `base` and the routine at `switch`.
fn test_words(
    alloc: Global,
    stub: &Stub,
    base: u32,
    at: u32,
    switch: u32,
) -> Result<Vec<u32>, AllocError>
    requires control { base + 64 < 4294967296 }
    requires place { at + test_bytes stub.now.region < 4294967296 }
    requires few { stub.now.region < 2048 }
    requires temp { stub.now.temp ≤ 31 }
    requires reach { Reaches at switch stub.now.region }
    ensures { IfOk result (λ words. MeanAll words.items (test_code base stub.now.temp at switch stub.now.region)) }
{
    if stub.region == 0 {
        return Ok(Vec::new(alloc));
    }
    let code = checking_stub(base, stub.temp, stub.region, at, switch);
    encode_all(alloc, &code)
}

// The words of a stub at an address.
fn stub_words(
    alloc: Global,
    stub: &Stub,
    base: u32,
    at: u32,
    switch: u32,
) -> Result<Vec<u32>, AllocError>
    requires control { base + 64 < 4294967296 }
    requires place { at + serving_size (serving_stub stub.now) < 4294967296 }
    requires can { CanServeAt 2047 switch at (serving_stub stub.now) }
    ensures { IfOk result (λ words. AreStubWords base switch at (serving_stub stub.now) words.items) }
{
    let test = test_words(alloc, stub, base, at, switch)?;
    let body = body_words(alloc, stub)?;
    let mut words = test;
    words.extend_from_slice(&body)?;
    Ok(words)
}

/// The words of stubs, in this order, from an address on.
pub(crate) fn all_stub_words(
    alloc: Global,
    ordered: &[&Stub],
    base: u32,
    first: u32,
    switch: u32,
) -> Result<Vec<u32>, AllocError>
    requires control { base + 64 < 4294967296 }
    requires can { CanServeFrom 2047 switch first (serving_stubs ordered.now) }
    requires fits { first + serving_bytes (serving_stubs ordered.now) < 4294967296 }
    ensures { IfOk result (λ words. AreServed base switch first (serving_stubs ordered.now) words.items) }
{
    let mut words = Vec::new(alloc);
    let mut at = first;
    for stub in ordered {
        let here = stub_words(alloc, stub, base, at, switch)?;
        words.extend_from_slice(&here)?;
        at += stub_size(stub);
    }
    Ok(words)
}

// How many bytes stand before each stub, in this order, and before the end of the last one.
fn offsets(alloc: Global, ordered: &[&Stub]) -> Result<Vec<u32>, AllocError>
    requires { serving_bytes (serving_stubs ordered.now) < 4294967296 }
    ensures { IfOk result (λ offsets. offsets.items ≡ places_from 0 (serving_stubs ordered.now)) }
{
    let mut offsets = Vec::new(alloc);
    let mut at = 0;
    for stub in ordered {
        offsets.push(at)?;
        at += stub_size(stub);
    }
    offsets.push(at)?;
    Ok(offsets)
}

// The bytes of the stubs whose homes are lower.
fn bytes_before(ordered: &[&Stub], offsets: &[u32], home: u32) -> u32
    requires ascend { IsStrictlyIncreasing (map serving_home (serving_stubs ordered.now)) }
    requires offsets { offsets.now ≡ places_from 0 (serving_stubs ordered.now) }
    ensures value { result ≡ served_before home (serving_stubs ordered.now) }
    ensures bound { result ≤ serving_bytes (serving_stubs ordered.now) }
{
    offsets[ordered.partition_point(|stub| stub.home < home)]
}

/// Where each of the stubs stands, if their words begin at `first`.
pub(crate) fn stub_places(
    alloc: Global,
    stubs: &[Stub],
    ordered: &[&Stub],
    first: u32,
) -> Result<Vec<u32>, AllocError>
    requires ascend { IsStrictlyIncreasing (map serving_home (serving_stubs ordered.now)) }
    requires fits { first + serving_bytes (serving_stubs ordered.now) < 4294967296 }
    ensures { IfOk result (λ places. places.items ≡ map (λ stub. first + served_before stub.home (serving_stubs ordered.now)) (map serving_stub stubs.now)) }
{
    let offsets = offsets(alloc, ordered)?;
    let mut places = Vec::new(alloc);
    for stub in stubs {
        places.push(first + bytes_before(ordered, &offsets, stub.home))?;
    }
    Ok(places)
}
