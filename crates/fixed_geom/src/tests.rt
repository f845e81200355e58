use super::*;
use std::test::Fail;

const ONE: i64 = 1 << 30;

const ORIGIN: Vec3 = Vec3 { x: 0, y: 0, z: 0 };

/// The rows of a small turn: 0.9998 and 0.019999.
const TURN: [i64; 9] = [1073527076, -21473763, 0, 21473763, 1073527076, 0, 0, 0, ONE];

const IDENTITY: [i64; 9] = [ONE, 0, 0, 0, ONE, 0, 0, 0, ONE];

fn refusal(r: [i64; 9], t: Vec3) -> Option<BadPose> {
    Pose::accept(&PoseRows { r, t }).err()
}

// Takes what threads can share.
fn is_shared<T: Send + Sync>(_value: &T) {}

fn along_x(x: i64) -> Vec3 {
    Vec3 { x, y: 0, z: 0 }
}

#[test]
fn poses_are_judged(rt: HostRuntime) {
    let mirror = [-ONE, 0, 0, 0, ONE, 0, 0, 0, ONE];
    let stretched = [1074815566, 0, 0, 0, ONE, 0, 0, 0, ONE];
    let least = [i64::MIN, 0, 0, 0, ONE, 0, 0, 0, ONE];
    let bent = [ONE, 1 << 20, 0, 0, ONE, 0, 0, 0, ONE];
    for (name, r, t, want) in [
        ("a small turn", TURN, ORIGIN, None),
        ("a mirror", mirror, ORIGIN, Some(BadPose::NotRotation)),
        ("bent columns", bent, ORIGIN, Some(BadPose::NotRotation)),
        (
            "stretched past the bound",
            stretched,
            ORIGIN,
            Some(BadPose::Range),
        ),
        ("least number as entry", least, ORIGIN, Some(BadPose::Range)),
        (
            "translation of 1 kilometre",
            IDENTITY,
            along_x(1_000_000_000),
            Some(BadPose::Range),
        ),
        (
            "least number as translation",
            IDENTITY,
            along_x(i64::MIN),
            Some(BadPose::Range),
        ),
        (
            "a mirror out of range",
            mirror,
            along_x(1_000_000_000),
            Some(BadPose::Range),
        ),
        (
            "translation at its bound",
            IDENTITY,
            along_x(100_000_000),
            None,
        ),
        (
            "translation at its lower bound",
            IDENTITY,
            along_x(-100_000_000),
            None,
        ),
        (
            "translation past its bound",
            IDENTITY,
            along_x(100_000_001),
            Some(BadPose::Range),
        ),
    ] {
        assert_eq!(rt; refusal(r, t), want, "{name}");
    }
}

#[test]
fn points_go_to_the_camera_and_back(rt: HostRuntime) -> Result<(), BadPose> {
    let half_turn = PoseRows {
        r: [-ONE, 0, 0, 0, ONE, 0, 0, 0, -ONE],
        t: Vec3 {
            x: 10,
            y: 20,
            z: 30,
        },
    };
    let pose = Pose::accept(&half_turn)?;
    is_shared(&pose);
    is_shared(&half_turn);
    is_shared(&half_turn.t);
    is_shared(&pose.cam_q30(half_turn.t));
    assert_eq!(rt; pose.rows(), half_turn);
    assert_eq!(rt;
        pose.cam(Vec3 {
            x: 11,
            y: 22,
            z: 33
        }),
        Vec3 { x: -1, y: 2, z: -3 }
    );
    assert_eq!(rt;
        pose.world(Vec3 { x: 1, y: 2, z: 3 }),
        Vec3 { x: 9, y: 22, z: 27 }
    );

    // Each coordinate is a floor: of 0.9998, -0.019999 and 0.019999 micrometres.
    let pose = Pose::accept(&PoseRows { r: TURN, t: ORIGIN })?;
    assert_eq!(rt;
        pose.cam(Vec3 { x: 1, y: 0, z: 0 }),
        Vec3 { x: 0, y: -1, z: 0 }
    );
    assert_eq!(rt; pose.world(Vec3 { x: 1, y: 0, z: 0 }), ORIGIN);
    Ok(())
}

#[test]
fn near_points_and_cam_q30(rt: HostRuntime) -> Result<(), BadPose> {
    let t = Vec3 {
        x: 10,
        y: 20,
        z: 30,
    };
    let point = Vec3 {
        x: 11,
        y: 22,
        z: 33,
    };
    let moved = Vec3 {
        x: 21,
        y: 42,
        z: 63,
    };
    let pose = Pose::accept(&PoseRows { r: IDENTITY, t })?;
    assert_eq!(rt; pose.near_world(point), moved);
    // The offset from the translation is (1, 2, 3).
    let cam_q30 = CamQ30 {
        x: 1 << 30,
        y: 2 << 30,
        z: 3 << 30,
    };
    assert_eq!(rt; pose.cam_q30(point), cam_q30);

    // A step along the camera's x goes 0.9998 and 0.019999 in the world; one along the world's x
    // goes 0.9998 and -0.019999 in the camera.
    let pose = Pose::accept(&PoseRows { r: TURN, t: ORIGIN })?;
    let floors = Vec3 { x: -1, y: -1, z: 0 };
    assert_eq!(rt; pose.near_world(Vec3 { x: 1, y: 0, z: 0 }), ORIGIN);
    assert_eq!(rt; pose.near_world(Vec3 { x: -1, y: 0, z: 0 }), floors);
    let cam_q30 = CamQ30 {
        x: 1073527076,
        y: -21473763,
        z: 0,
    };
    assert_eq!(rt; pose.cam_q30(Vec3 { x: 1, y: 0, z: 0 }), cam_q30);
    Ok(())
}

#[test]
fn row_products_and_their_floors(rt: HostRuntime) {
    // The largest entry is 2^30 + 2^17, and the furthest point has coordinates of 2^29.
    let most = (1 << 30) + (1 << 17);
    let large = Vec3 {
        x: most,
        y: most,
        z: most,
    };
    let far = Vec3 {
        x: 1 << 29,
        y: 1 << 29,
        z: 1 << 29,
    };
    let row = Vec3 {
        x: ONE,
        y: -ONE / 2,
        z: 3,
    };
    let point = Vec3 { x: 5, y: 3, z: -7 };
    assert_eq!(rt; dot(large, far), 3 * ((1 << 59) + (1 << 46)));
    // 3.5 micrometres less 21 units.
    assert_eq!(rt; dot(row, point), 3_758_096_363);
    for (q30, want) in [
        (3_758_096_363, 3),
        (ONE, 1),
        (ONE - 1, 0),
        (-1, -1),
        (i64::MAX, 8_589_934_591),
        (i64::MIN, -8_589_934_592),
    ] {
        assert_eq!(rt; micrometres(q30), want);
    }
}

#[test]
fn quotients_are_floors(rt: HostRuntime) {
    let most: i128 = 1 << 125;
    assert_eq!(rt; floor_div(7, 2), 3);
    assert_eq!(rt; floor_div(-7, 2), -4);
    assert_eq!(rt; floor_div(-8, 2), -4);
    assert_eq!(rt; floor_div(-1, most), -1);
    assert_eq!(rt; floor_div(-most, 1), -most);
    assert_eq!(rt; round_div(3, 2), 2);
    assert_eq!(rt; round_div(-3, 2), -1);
    assert_eq!(rt; round_div(-5, 10), 0);
    assert_eq!(rt; round_div(-6, 10), -1);
    assert_eq!(rt; round_div(-most, most), -1);
    for (n, by) in [
        (0, 2),
        (6, 7),
        (7, 7),
        (8, 7),
        (65535, 40000),
        (1 << 40, 8000),
    ] {
        assert_eq!(rt; quotient(n, by, reciprocal(by)), n / by, "{n} by {by}");
    }
}

#[test]
fn decimals_are_read(rt: HostRuntime) {
    let micro = 1_000_000;
    for (name, text, scale, want) in [
        ("half a micrometre up", "0.0000005", micro, Ok(1)),
        ("minus half goes up to 0", "-0.0000005", micro, Ok(0)),
        ("no digit before the point", ".5", micro, Ok(500_000)),
        ("no digit after the point", "5.", micro, Ok(5_000_000)),
        ("a small power", "1e-40", micro, Ok(0)),
        (
            "an exponent with a sign",
            "1.0000000000000000000e+00",
            1 << 30,
            Ok(1_073_741_824),
        ),
        ("a sign alone", "-", micro, Err(BadNumber::Grammar)),
        ("a word", "nan", micro, Err(BadNumber::Grammar)),
        ("exponent past 3", "1e4", micro, Err(BadNumber::Grammar)),
        ("no byte", "", micro, Err(BadNumber::Grammar)),
        (
            "past 10^18",
            "999999999999999",
            micro,
            Err(BadNumber::Range),
        ),
    ] {
        assert_eq!(rt; read_decimal(text.as_bytes(), scale), want, "{name}");
    }
}

#[test]
fn refusals_have_words(rt: HostRuntime) -> Result<(), Fail> {
    let alloc = rt.alloc();
    assert_eq!(rt;
        BadPose::NotRotation.to_string(alloc)?.as_str(),
        "the entries are no rotation"
    );
    assert_eq!(rt;
        BadNumber::Grammar.to_string(alloc)?.as_str(),
        "the text is no decimal"
    );
    Ok(())
}
