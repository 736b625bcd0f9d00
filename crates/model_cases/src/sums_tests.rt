use number_laws::{all, any, count, first, sum, total};

#[test]
fn computes_each_kind(rt: HostRuntime) {
    assert_eq!(rt; sum(&[3, 0, 4]), 7);
    assert_eq!(rt; total(&[3, -5, 1]), -1);
    assert_eq!(rt; count(&[true, false, true]), 2);
    assert!(rt; all(&[true, true]) && !all(&[true, false]) && all(&[]));
    assert!(rt; any(&[false, true]) && !any(&[false]) && !any(&[]));
    assert_eq!(rt; first(&[false, false, true, true]), 2);
    assert_eq!(rt; first(&[false, false]), 2);
}
