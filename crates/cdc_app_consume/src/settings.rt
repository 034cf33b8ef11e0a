//! What is asked of the server.

ghost use Rattle.std.specs.Prelude.{◌≡◌, IfSome};
ghost use Rattle.cdc_amqp_consumer.specs.Machine.{SettingsFit};

use cdc_amqp_consumer::Settings;

/// The settings, if their texts fit their fields in AMQP.
pub fn fitting<'a>(settings: Settings<'a>) -> Option<Settings<'a>>
    ensures { IfSome result SettingsFit }
{
    if settings.user.len() < 65_536
        && settings.password.len() < 65_536
        && settings.host.len() < 256
        && settings.queue.len() < 256
    {
        Some(settings)
    } else {
        None
    }
}
