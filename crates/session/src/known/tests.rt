use super::*;

// The places of voxels in the whole grid, by the index in a block.
#[test]
fn voxels_have_their_places(rt: HostRuntime) {
    let origin = BlockKey { x: 0, y: 0, z: 0 };
    let corner = BlockKey {
        x: -32768,
        y: 2,
        z: 32767,
    };
    let observed = Voxel { f: -32767, w: 255 };
    for (key, i, place) in [
        (origin, 0, (0, 0, 0)),
        (origin, 1, (1, 0, 0)),
        (origin, 8, (0, 1, 0)),
        (origin, 64, (0, 0, 1)),
        (corner, 0, (-262144, 16, 262136)),
        (corner, 511, (-262137, 23, 262143)),
    ] {
        let (x, y, z) = place;
        let voxel = KnownVoxel {
            x,
            y,
            z,
            f: -32767,
            w: 255,
        };
        assert_eq!(rt; known_at(key, i, observed), Some(voxel));
    }
    assert_eq!(rt; known_at(origin, 0, Voxel { f: 32767, w: 0 }), None);
}
