use pgs_bytes::Bytes;
use pgs_copy::{Damage, Effect, apply_damage, apply_effects};
use std::collections::BTreeMap;
use std::test::Fail;

#[test]
fn effects_and_flips(rt: HostRuntime) -> Result<(), Fail> {
    let alloc = rt.alloc();
    let mut copies = BTreeMap::new(alloc);
    let bytes = Bytes::from_slice(alloc, b"123456789")?;
    let effects = vec![in alloc;
        (7, Effect::Clear),
        (7, Effect::SetData { bytes }),
        (9, Effect::Clear),
    ]?;
    apply_effects(alloc, &mut copies, effects.as_slice())?;
    for (at, xor) in [(8, 1), (9, 1), (0, 0x20)] {
        apply_damage(alloc, &mut copies, 7, &Damage::Flip { at, xor })?;
        apply_damage(alloc, &mut copies, 8, &Damage::Flip { at, xor })?;
    }
    let copy = copies.get(&7).ok_or("a copy at 7")?;
    assert_eq!(rt; copy.bytes.as_slice(), b"\x1123456788".as_slice());
    assert_eq!(rt; copies.contains_key(&8), false);
    let copy = copies.get(&9).ok_or("a copy at 9")?;
    assert!(rt; copy.bytes.is_empty());
    Ok(())
}
