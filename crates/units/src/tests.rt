use crate::*;

#[test]
fn surplus_has_its_sign(rt: HostRuntime) {
    let cases = [
        (0, 0, 1),
        (0, 1, 0),
        (0, 2, -1),
        (8191, 0, 8192),
        (0, 4095, -4094),
        (65535, 0, 65536),
        (0, 65535, -65534),
    ];
    for (level, amount, ends) in cases {
        assert_eq!(rt; surplus(Level(level), Amount(amount)), ends);
    }
}

#[test]
fn positive_surplus_is_1_to_8192(rt: HostRuntime) {
    for (given, taken) in [
        (1, true),
        (8192, true),
        (0, false),
        (8193, false),
        (-1, false),
        (i32::MIN, false),
    ] {
        match PositiveSurplus::new(given) {
            Some(surplus) => assert!(rt; taken && surplus.value() as i32 == given),
            None => assert!(rt; !taken),
        }
    }
}

#[test]
fn deficit_is_0_to_4095(rt: HostRuntime) {
    for (given, taken) in [
        (0, true),
        (-1, true),
        (-4095, true),
        (1, false),
        (-4096, false),
        (i32::MIN, false),
    ] {
        match Deficit::of_surplus(given) {
            Some(deficit) => assert!(rt; taken && deficit.value() as i32 + given == 0),
            None => assert!(rt; !taken),
        }
    }
}
