use crate::*;
use run::Dropped;
use std::test::Fail;
use units::Periods;

#[test]
fn lines_are_written_to_the_byte(rt: HostRuntime) -> Result<(), Fail> {
    let heap = rt.alloc();
    assert_eq!(rt;
        refusal_line(heap, 203, 65535)?.as_bytes(),
        b"no 203 65535\n".as_slice()
    );
    assert_eq!(rt;
        refusal_line(heap, 201, 0)?.as_bytes(),
        b"no 201 0\n".as_slice()
    );
    assert_eq!(rt; end_line(heap, 0)?.as_bytes(), b"end 0\n".as_slice());
    assert_eq!(rt;
        end_line(heap, 65535)?.as_bytes(),
        b"end 65535\n".as_slice()
    );
    Ok(())
}

fn answer(lower: u32, upper: u32, periods: u16, dropped: u32) -> Answer {
    Answer {
        pair: Pair { lower, upper },
        periods: Periods(periods),
        dropped: Dropped(dropped),
    }
}

#[test]
fn answers_are_written_to_the_byte(rt: HostRuntime) -> Result<(), Fail> {
    let heap = rt.alloc();
    assert_eq!(rt;
        answer_line(heap, Level(0), answer(805306368, 805306368, 2, 0))?.as_bytes(),
        b"u 0 805306368 805306368 2 0\n".as_slice()
    );
    assert_eq!(rt;
        answer_line(heap, Level(8191), answer(1, u32::MAX, 4095, 1048576))?.as_bytes(),
        b"u 8191 1 4294967295 4095 1048576\n".as_slice()
    );
    Ok(())
}

fn point_of(lower: u32, upper: u32) -> ChartPoint {
    ChartPoint::from(Pair { lower, upper })
}

fn point(lower: f64, upper: f64) -> ChartPoint {
    ChartPoint { lower, upper }
}

#[test]
fn chart_points_are_exact(rt: HostRuntime) {
    assert_eq!(rt; point_of(0, 1073741824), point(0.0, 1.0));
    assert_eq!(rt;
        point_of(1, 536870912),
        point(9.31322574615478515625e-10, 0.5)
    );
    assert_eq!(rt;
        point_of(u32::MAX - 1, u32::MAX),
        point(
            3.99999999813735485076904296875,
            3.999999999068677425384521484375,
        )
    );
}
