// The kinds that are built: coordinates and influences on points, texture pairs and colours on corners.
#![tactic(auto)]

pub mod colour;
pub mod coordinates;
pub mod influence;
pub mod rounding;
pub mod texture;

#[cfg(test)]
mod tests {
    use crate::colour::Colour;
    use crate::coordinates::Coordinates;
    use crate::influence::Influence;
    use crate::texture::Texture;
    use kinds::corner::CornerKind;
    use kinds::row::Rowed;
    use kinds::value::{ValueKind, add_part};
    use mesh::fault::Fault;
    use std::test::Fail;

    #[test]
    fn halves_go_to_the_greater(rt: HostRuntime) {
        let mut mix = Coordinates::start();
        for row in [[0, 0, 5], [0, 0, 5], [1, -1, 5], [1, -1, 9]] {
            if let Ok(at) = Coordinates::make(&row) {
                add_part(&mut mix, &at, 1);
            }
        }
        assert_eq!(rt; Coordinates::finish(mix).to_row(), [1, 0, 6]);
    }

    #[test]
    fn coordinates_have_a_limit(rt: HostRuntime) {
        assert_eq!(rt; Coordinates::new(16_777_216, -16_777_216, 0).err(), None);
        assert_eq!(rt;
            Coordinates::new(16_777_217, 0, 16_777_217).err(),
            Some(Fault::NoValue(0))
        );
        assert_eq!(rt;
            Coordinates::new(0, -16_777_217, 0).err(),
            Some(Fault::NoValue(1))
        );
        assert_eq!(rt;
            Coordinates::new(0, 0, i32::MIN).err(),
            Some(Fault::NoValue(2))
        );
    }

    #[test]
    fn influences_of_no_weight_are_not_taken(rt: HostRuntime) {
        let mut mix = Influence::start();
        add_part(&mut mix, &Influence { bits: 1 }, 2);
        add_part(&mut mix, &Influence { bits: 4 }, 0);
        add_part(&mut mix, &Influence { bits: 8 }, 1);
        assert_eq!(rt; Influence::finish(mix).to_row(), 9);
    }

    #[test]
    fn texture_numbers_are_finite(rt: HostRuntime) {
        assert_eq!(rt; Texture::new(65536.0, -65536.0).err(), None);
        assert_eq!(rt; Texture::new(0.0, 65536.01).err(), Some(Fault::NoValue(1)));
        assert_eq!(rt;
            Texture::new(f32::NAN, f32::NAN).err(),
            Some(Fault::NoValue(0))
        );
        assert_eq!(rt;
            Texture::new(1.0, f32::NEG_INFINITY).err(),
            Some(Fault::NoValue(1))
        );
    }

    #[test]
    fn middles_of_textures(rt: HostRuntime) -> Result<(), Fail> {
        if let Ok(a) = Texture::make(&[1.0, -0.0]) {
            if let Ok(b) = Texture::make(&[2.0, -0.0]) {
                let [u, v] = a.midway(&b).to_row();
                assert_eq!(rt; u, 1.5);
                assert!(rt; v == 0.0 && v.is_sign_negative());
                return Ok(());
            }
        }
        assert!(rt; false);
        Ok(())
    }

    #[test]
    fn middles_of_colours(rt: HostRuntime) {
        let a = Colour {
            red: 255,
            green: 0,
            blue: 3,
        };
        let b = Colour {
            red: 255,
            green: 1,
            blue: 4,
        };
        assert_eq!(rt;
            a.midway(&b),
            Colour {
                red: 255,
                green: 0,
                blue: 3,
            }
        );
    }
}
