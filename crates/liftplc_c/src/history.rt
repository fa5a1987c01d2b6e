// What is so of each world, since some history led to it.

ghost use Rattle.liftplc_c.specs.Handles.{IsLed};

use group_world::World;

/// Some history led to the world, and it is well.
pub fn led(world: &World)
    ensures { IsLed world.now }
{
    let _config = world.verified().config();
    let _image = world.image();
}
